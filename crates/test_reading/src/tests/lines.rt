//! Lines with their canonical lines, and refused lines with their faults.

ghost use Rattle.std.specs.Prelude.{◌<◌, IsTrue, length};
ghost use Rattle.um_script.specs.Writable.{is_line};

use std::alloc::Global;
use um_base::Instr;
use um_script::{LineFault, LineKind, parse_line, print_line};

/// Lines, and their canonical lines.
const LINES: &[(&str, &str)] = &[
    ("  store   @p+31 1 0xab", "store @p+31 1 171"),
    ("end ", "end"),
    ("store @p 4 1 ", "store @p 4 1"),
    ("k_mem_domain_init d", "k_mem_domain_init d"),
    ("k_mem_domain_init d p p p p", "k_mem_domain_init d p p p p"),
    ("k_oops ", "k_oops"),
    ("repeat 1000", "repeat 1000"),
    ("repeat 1", "repeat 1"),
    ("end", "end"),
    ("set r7 4294967295", "set r7 4294967295"),
    ("set r7 @p+31", "set r7 @p+31"),
    ("add r0 0xff", "add r0 255"),
    ("add r0 @p+31", "add r0 @p+31"),
    ("load r7 4294967295 2", "load r7 4294967295 2"),
    ("load r7 @p 1", "load r7 @p 1"),
    ("exec @p+31", "exec @p+31"),
    ("exec 0xff", "exec 255"),
    ("k_oops", "k_oops"),
    ("k_panic", "k_panic"),
    (
        "k_mem_domain_add_partition app 0x20000020/48/P_RW_U_RW",
        "k_mem_domain_add_partition app 536870944/48/P_RW_U_RW",
    ),
    (
        "k_mem_domain_add_partition app p",
        "k_mem_domain_add_partition app p",
    ),
    (
        "k_mem_domain_remove_partition app 0x20000020/48/P_RW_U_RW",
        "k_mem_domain_remove_partition app 536870944/48/P_RW_U_RW",
    ),
    (
        "k_mem_domain_remove_partition d p",
        "k_mem_domain_remove_partition d p",
    ),
    (
        "k_mem_domain_add_thread d @p+31",
        "k_mem_domain_add_thread d @p+31",
    ),
    (
        "k_mem_domain_add_thread d 4294967295",
        "k_mem_domain_add_thread d 4294967295",
    ),
    ("k_object_alloc mutex r7", "k_object_alloc mutex r7"),
    ("k_object_alloc sem r7", "k_object_alloc sem r7"),
    (
        "k_object_access_grant @p+31 @p",
        "k_object_access_grant @p+31 @p",
    ),
    (
        "k_object_access_grant @a_9+65536 @p",
        "k_object_access_grant @a_9+65536 @p",
    ),
    (
        "k_object_access_revoke @p @a_9+65536",
        "k_object_access_revoke @p @a_9+65536",
    ),
    (
        "k_object_access_revoke 4294967295 @p",
        "k_object_access_revoke 4294967295 @p",
    ),
    ("k_object_release 0xff", "k_object_release 255"),
    ("k_object_release @a_9+65536", "k_object_release @a_9+65536"),
    (
        "k_object_access_all_grant @rodata",
        "k_object_access_all_grant @rodata",
    ),
    (
        "k_object_access_all_grant 4294967295",
        "k_object_access_all_grant 4294967295",
    ),
    (
        "k_thread_create r3 @p @p m 14 K_ESSENTIAL+K_INHERIT_PERMS+K_USER",
        "k_thread_create r3 @p @p m 14 K_USER+K_INHERIT_PERMS+K_ESSENTIAL",
    ),
    (
        "k_thread_create @p+31 @a_9+65536 r3 sense -128 0",
        "k_thread_create @p+31 @a_9+65536 r3 sense -128 0",
    ),
    (
        "k_thread_user_mode_enter sense",
        "k_thread_user_mode_enter sense",
    ),
    ("k_thread_name_set r3 0", "k_thread_name_set r3 0"),
    (
        "k_thread_name_set @a_9+65536 @p",
        "k_thread_name_set @a_9+65536 @p",
    ),
    (
        "k_sem_init r3 4294967295 0xff",
        "k_sem_init r3 4294967295 255",
    ),
    ("k_sem_init r3 0 4294967295", "k_sem_init r3 0 4294967295"),
    (
        "k_sem_take @a_9+65536 K_FOREVER",
        "k_sem_take @a_9+65536 K_FOREVER",
    ),
    (
        "k_sem_take @rodata K_FOREVER",
        "k_sem_take @rodata K_FOREVER",
    ),
    ("k_sem_give 4294967295", "k_sem_give 4294967295"),
    ("k_sem_give @p+31", "k_sem_give @p+31"),
    ("k_sem_reset @p+31", "k_sem_reset @p+31"),
    ("k_sem_reset @p", "k_sem_reset @p"),
    (
        "k_sem_count_get 4294967295 r7",
        "k_sem_count_get 4294967295 r7",
    ),
    (
        "k_sem_count_get @a_9+65536 r7",
        "k_sem_count_get @a_9+65536 r7",
    ),
    ("k_mutex_init @p", "k_mutex_init @p"),
    ("k_mutex_init 0", "k_mutex_init 0"),
    ("k_mutex_lock 0 K_NO_WAIT", "k_mutex_lock 0 K_NO_WAIT"),
    (
        "k_mutex_lock @a_9+65536 K_NO_WAIT",
        "k_mutex_lock @a_9+65536 K_NO_WAIT",
    ),
    ("k_mutex_unlock 0", "k_mutex_unlock 0"),
    ("k_mutex_unlock 4294967295", "k_mutex_unlock 4294967295"),
    (
        "k_msgq_alloc_init @rodata @p+31 r3",
        "k_msgq_alloc_init @rodata @p+31 r3",
    ),
    (
        "k_msgq_alloc_init 4294967295 r3 @rodata",
        "k_msgq_alloc_init 4294967295 r3 @rodata",
    ),
    (
        "k_msgq_put 4294967295 @p+31 K_NO_WAIT",
        "k_msgq_put 4294967295 @p+31 K_NO_WAIT",
    ),
    (
        "k_msgq_put 4294967295 @rodata K_NO_WAIT",
        "k_msgq_put 4294967295 @rodata K_NO_WAIT",
    ),
    (
        "k_msgq_get 4294967295 r3 K_FOREVER",
        "k_msgq_get 4294967295 r3 K_FOREVER",
    ),
    ("k_msgq_get 0 @p K_NO_WAIT", "k_msgq_get 0 @p K_NO_WAIT"),
    ("k_msgq_peek 0xff r3", "k_msgq_peek 255 r3"),
    ("k_msgq_peek @a_9+65536 @p", "k_msgq_peek @a_9+65536 @p"),
    ("k_msgq_purge @a_9+65536", "k_msgq_purge @a_9+65536"),
    ("k_msgq_purge r3", "k_msgq_purge r3"),
    ("k_msgq_num_used_get 0xff r7", "k_msgq_num_used_get 255 r7"),
    (
        "k_msgq_num_used_get @a_9+65536 r7",
        "k_msgq_num_used_get @a_9+65536 r7",
    ),
    ("k_stack_alloc_init r3 @p+31", "k_stack_alloc_init r3 @p+31"),
    (
        "k_stack_alloc_init 4294967295 @a_9+65536",
        "k_stack_alloc_init 4294967295 @a_9+65536",
    ),
    ("k_stack_push @p+31 @p", "k_stack_push @p+31 @p"),
    (
        "k_stack_push @p+31 @a_9+65536",
        "k_stack_push @p+31 @a_9+65536",
    ),
    (
        "k_stack_pop 4294967295 r3 K_NO_WAIT",
        "k_stack_pop 4294967295 r3 K_NO_WAIT",
    ),
    ("k_stack_pop 0 0 K_NO_WAIT", "k_stack_pop 0 0 K_NO_WAIT"),
    ("k_pipe_init @rodata @rodata", "k_pipe_init @rodata @rodata"),
    ("k_pipe_init @rodata @p+31", "k_pipe_init @rodata @p+31"),
    (
        "k_pipe_write 0xff 0xff 0 K_NO_WAIT",
        "k_pipe_write 255 255 0 K_NO_WAIT",
    ),
    (
        "k_pipe_write 0 @a_9+65536 0xff K_NO_WAIT",
        "k_pipe_write 0 @a_9+65536 255 K_NO_WAIT",
    ),
    (
        "k_pipe_read @p 4294967295 @p K_FOREVER",
        "k_pipe_read @p 4294967295 @p K_FOREVER",
    ),
    (
        "k_pipe_read 0 r3 @rodata K_NO_WAIT",
        "k_pipe_read 0 r3 @rodata K_NO_WAIT",
    ),
    ("k_pipe_reset 4294967295", "k_pipe_reset 4294967295"),
    ("k_pipe_reset @a_9+65536", "k_pipe_reset @a_9+65536"),
    ("k_pipe_close @a_9+65536", "k_pipe_close @a_9+65536"),
    ("k_pipe_close 0", "k_pipe_close 0"),
    ("  k_panic ", "k_panic"),
    (
        "  k_thread_user_mode_enter sense",
        "k_thread_user_mode_enter sense",
    ),
    (
        "k_thread_user_mode_enter   a_9",
        "k_thread_user_mode_enter a_9",
    ),
    (" k_oops", "k_oops"),
    (" end ", "end"),
    ("  set   r3   0x0000000a  ", "set r3 10"),
    ("set r0 0000000000", "set r0 0"),
    ("set r0 @p+0", "set r0 @p"),
    ("set r0 @p+0000000031", "set r0 @p+31"),
    ("set r0 @p+65536", "set r0 @p+65536"),
    ("set r0 @rodata+4", "set r0 @rodata+4"),
    ("set r0 0xffffffff", "set r0 4294967295"),
    ("repeat 0x3e8", "repeat 1000"),
    (
        "k_thread_create 0 0 0 c -0 0",
        "k_thread_create 0 0 0 c 0 0",
    ),
    (
        "k_thread_create 0 0 0 c 007 K_ESSENTIAL+K_USER",
        "k_thread_create 0 0 0 c 7 K_USER+K_ESSENTIAL",
    ),
    (
        "k_thread_create 0 0 0 c 127 K_ESSENTIAL+K_INHERIT_PERMS+K_USER",
        "k_thread_create 0 0 0 c 127 K_USER+K_INHERIT_PERMS+K_ESSENTIAL",
    ),
    (
        "k_thread_create 0 0 0 c -128 K_ESSENTIAL+K_INHERIT_PERMS",
        "k_thread_create 0 0 0 c -128 K_INHERIT_PERMS+K_ESSENTIAL",
    ),
    (
        "k_mem_domain_init d 0/0/P_RW_U_RO 0/0/P_RW_U_NA 0/0/P_RO_U_RO 0/0/P_RO_U_NA",
        "k_mem_domain_init d 0/0/P_RW_U_RO 0/0/P_RW_U_NA 0/0/P_RO_U_RO 0/0/P_RO_U_NA",
    ),
    (
        "k_mem_domain_add_partition d 0/0xffffffff/P_RX_U_RX",
        "k_mem_domain_add_partition d 0/4294967295/P_RX_U_RX",
    ),
    (
        "exec @abcdefghijklmnopqrstuvwx",
        "exec @abcdefghijklmnopqrstuvwx",
    ),
    ("exec @A_9", "exec @A_9"),
    ("exec @rodata_", "exec @rodata_"),
    ("k_object_alloc thread r0", "k_object_alloc thread r0"),
    ("k_object_alloc stack r1", "k_object_alloc stack r1"),
    ("k_object_alloc pipe r2", "k_object_alloc pipe r2"),
    ("k_object_alloc msgq r3", "k_object_alloc msgq r3"),
    ("k_sem_take @s K_TICKS(5)", "k_sem_take @s K_TICKS(5)"),
    (
        "k_mutex_lock 0 K_TICKS(0000001)",
        "k_mutex_lock 0 K_TICKS(1)",
    ),
    (
        "k_msgq_put @q @p K_TICKS(1000000)",
        "k_msgq_put @q @p K_TICKS(1000000)",
    ),
    (
        "k_msgq_get  @q @p  K_TICKS(010) ",
        "k_msgq_get @q @p K_TICKS(10)",
    ),
    (
        "k_stack_pop r1 @p K_TICKS(2)",
        "k_stack_pop r1 @p K_TICKS(2)",
    ),
    (
        "k_pipe_write 0 @p 4 K_TICKS(999999)",
        "k_pipe_write 0 @p 4 K_TICKS(999999)",
    ),
    (
        "k_pipe_read @w @p 4 K_TICKS(0999999)",
        "k_pipe_read @w @p 4 K_TICKS(999999)",
    ),
    ("k_timer_start @tm 0", "k_timer_start @tm 0"),
    (
        "  k_timer_start   @tm+64   0x10 ",
        "k_timer_start @tm+64 16",
    ),
    ("k_timer_start r1 r2", "k_timer_start r1 r2"),
    ("k_timer_stop 0xff", "k_timer_stop 255"),
    ("k_timer_status_get @tm r0", "k_timer_status_get @tm r0"),
    ("k_timer_status_sync @tm+0 r7", "k_timer_status_sync @tm r7"),
    ("  k_thread_abort   @t+0", "k_thread_abort @t"),
    ("k_thread_join @t K_NO_WAIT ", "k_thread_join @t K_NO_WAIT"),
    (
        "k_thread_join 0xff K_TICKS(007)",
        "k_thread_join 255 K_TICKS(7)",
    ),
    ("k_thread_suspend r1", "k_thread_suspend r1"),
    (" k_thread_resume 0x40000000", "k_thread_resume 1073741824"),
    (
        "k_futex_wait  @f  0x10  K_FOREVER",
        "k_futex_wait @f 16 K_FOREVER",
    ),
    (
        "k_futex_wait r0 r1 K_TICKS(01)",
        "k_futex_wait r0 r1 K_TICKS(1)",
    ),
    ("k_futex_wake @p+4 one", "k_futex_wake @p+4 one"),
    ("k_futex_wake 0x20000000 all", "k_futex_wake 536870912 all"),
];

/// Refused lines, with the kind of fault and its column.
const REFUSED: &[(&str, LineKind, u32)] = &[
    ("", LineKind::Missing, 1),
    ("load", LineKind::Missing, 5),
    ("lod r0 0 1", LineKind::UnknownWord, 1),
    ("load r8 0 1", LineKind::Operand, 6),
    ("set r0 4294967296", LineKind::Range, 8),
    ("set r0 1 2", LineKind::Extra, 10),
    (" end x", LineKind::Extra, 6),
    ("\tend", LineKind::UnknownWord, 1),
    ("k_mem_domain_init d p p p p p", LineKind::Extra, 29),
    ("k_oops now", LineKind::Extra, 8),
    ("K_OOPS", LineKind::UnknownWord, 1),
    ("set\tr0 1", LineKind::UnknownWord, 1),
    ("k_futex_requeue 0 0 one", LineKind::UnknownWord, 1),
    ("k_thread_abort", LineKind::Missing, 15),
    ("k_thread_join @t", LineKind::Missing, 17),
    ("k_thread_join @t K_TICKS(0)", LineKind::Range, 18),
    ("k_thread_suspend t", LineKind::Operand, 18),
    ("k_thread_resume @t @t", LineKind::Extra, 20),
    ("k_futex_wait @f K_NO_WAIT", LineKind::Operand, 17),
    ("k_futex_wait 0 0", LineKind::Missing, 17),
    ("k_futex_wake @f", LineKind::Missing, 16),
    ("k_futex_wake @f 1", LineKind::Operand, 17),
    ("k_futex_wake @f All", LineKind::Operand, 17),
    ("k_futex_wake @f+65537 one", LineKind::Range, 14),
    ("k_futex_wake @f one all", LineKind::Extra, 21),
    ("# set r0 1", LineKind::UnknownWord, 1),
    ("repeat 00000000001", LineKind::Operand, 8),
    ("repeat 0", LineKind::Range, 8),
    ("repeat  ", LineKind::Missing, 9),
    ("  repeat   0x10  extra", LineKind::Extra, 18),
    ("set r00 r3", LineKind::Operand, 5),
    ("set ", LineKind::Missing, 5),
    ("add r00 4294967295", LineKind::Operand, 5),
    ("add  ", LineKind::Missing, 6),
    ("add r7 4294967296", LineKind::Range, 8),
    ("  add   r7   @p+31  extra", LineKind::Extra, 21),
    ("load r0 @p+65537 1", LineKind::Range, 9),
    ("  load   r7   0xff   4  extra", LineKind::Extra, 25),
    ("store 4294967296 1 @a_9+65536", LineKind::Range, 7),
    ("store é 2 4294967295", LineKind::Operand, 7),
    ("store  ", LineKind::Missing, 8),
    ("  store   @a_9+65536   2   r3  extra", LineKind::Extra, 32),
    ("exec é", LineKind::Operand, 6),
    ("exec ", LineKind::Missing, 6),
    ("  exec   @rodata  extra", LineKind::Extra, 19),
    ("  k_panic  extra", LineKind::Extra, 12),
    (
        "k_mem_domain_init d-d 0x20000020/48/P_RW_U_RW",
        LineKind::Operand,
        19,
    ),
    ("k_mem_domain_init", LineKind::Missing, 18),
    (
        "k_mem_domain_init d 1/4294967296/P_RW_U_NA",
        LineKind::Range,
        21,
    ),
    (
        "k_mem_domain_add_partition 9d 536870912/0x20/P_RWX_U_RWX",
        LineKind::Operand,
        28,
    ),
    ("k_mem_domain_add_partition  ", LineKind::Missing, 29),
    (
        "  k_mem_domain_add_partition   app   0x20000020/48/P_RW_U_RW  extra",
        LineKind::Extra,
        63,
    ),
    (
        "k_mem_domain_remove_partition rodata p",
        LineKind::Operand,
        31,
    ),
    ("k_mem_domain_remove_partition  ", LineKind::Missing, 32),
    (
        "  k_mem_domain_remove_partition   app   0x20000020/48/P_RW_U_RW  extra",
        LineKind::Extra,
        66,
    ),
    (
        "k_mem_domain_add_thread xxxxxxxxxxxxxxxxxxxxxxxxx @rodata",
        LineKind::Operand,
        25,
    ),
    ("k_mem_domain_add_thread  ", LineKind::Missing, 26),
    (
        "  k_mem_domain_add_thread   d   @p+31  extra",
        LineKind::Extra,
        40,
    ),
    ("k_object_alloc any r7", LineKind::Operand, 16),
    ("k_object_alloc", LineKind::Missing, 15),
    (
        "k_object_access_grant @xxxxxxxxxxxxxxxxxxxxxxxxx @p+31",
        LineKind::Operand,
        23,
    ),
    ("k_object_access_grant @p+65537 r3", LineKind::Range, 23),
    ("k_object_access_grant ", LineKind::Missing, 23),
    ("k_object_access_revoke @p+ @p", LineKind::Operand, 24),
    ("k_object_release 4294967296", LineKind::Range, 18),
    ("k_object_access_all_grant 4294967296", LineKind::Range, 27),
    (
        "k_thread_create 0xff 4294967296 @a_9+65536 sense -128 K_INHERIT_PERMS+K_USER",
        LineKind::Range,
        22,
    ),
    (
        "k_thread_name_set 4294967296 4294967295",
        LineKind::Range,
        19,
    ),
    ("k_sem_init @p @p+65537 0xff", LineKind::Range, 15),
    ("k_sem_take 4294967296 K_FOREVER", LineKind::Range, 12),
    ("   ", LineKind::Missing, 4),
    ("SET r0 0", LineKind::UnknownWord, 1),
    ("é", LineKind::UnknownWord, 1),
    ("set r8 0", LineKind::Operand, 5),
    ("set r0 ", LineKind::Missing, 8),
    ("set r0 0x", LineKind::Operand, 8),
    ("set r0 0x123456789", LineKind::Operand, 8),
    ("set r0 0X1", LineKind::Operand, 8),
    ("set r0 0xA", LineKind::Operand, 8),
    ("set r0 12345678901", LineKind::Operand, 8),
    ("set r0 9999999999", LineKind::Range, 8),
    ("set r0 @rodata+", LineKind::Operand, 8),
    ("set r0 @p+x", LineKind::Operand, 8),
    ("set r0 @p+65537", LineKind::Range, 8),
    ("set r0 @9+65537", LineKind::Operand, 8),
    ("set r0 @p+1+2", LineKind::Operand, 8),
    ("set r0 @p+0x1", LineKind::Operand, 8),
    ("repeat 1001 2", LineKind::Range, 8),
    ("repeat 9999999999", LineKind::Range, 8),
    ("load r0 0 3 4", LineKind::Operand, 11),
    ("load r0 4294967296 3", LineKind::Range, 9),
    (
        "k_mem_domain_add_partition d 4294967296/x/P_RW_U_RW",
        LineKind::Operand,
        30,
    ),
    (
        "k_mem_domain_add_partition d 4294967296/1/P_RW",
        LineKind::Operand,
        30,
    ),
    (
        "k_mem_domain_add_partition d 4294967296/1/P_RW_U_RW",
        LineKind::Range,
        30,
    ),
    ("k_mem_domain_add_partition d //", LineKind::Operand, 30),
    ("k_thread_create 0 0 0 c 128 0", LineKind::Range, 25),
    ("k_thread_create 0 0 0 c -129 0", LineKind::Range, 25),
    ("k_thread_create 0 0 0 c -1000 0", LineKind::Operand, 25),
    ("k_thread_create 0 0 0 c - 0", LineKind::Operand, 25),
    (
        "k_thread_create 0 0 0 c 0 K_USER+K_USER",
        LineKind::Operand,
        27,
    ),
    ("k_thread_create 0 0 0 c 0 K_USER+", LineKind::Operand, 27),
    ("k_thread_create 0 0 0 c 0 +K_USER", LineKind::Operand, 27),
    ("k_thread_create 0 0 0 c 0 00", LineKind::Operand, 27),
    ("k_thread_create 0 0 0 c 0 K_USER+0", LineKind::Operand, 27),
    (
        "k_thread_create 0 0 0 c 0 K_USER+K_INHERIT_PERMS+K_ESSENTIAL+K_USER",
        LineKind::Operand,
        27,
    ),
    ("k_thread_create 0 0 0 c 0", LineKind::Missing, 26),
    ("k_mem_domain_init d p p p p p/", LineKind::Extra, 29),
    ("k_mem_domain_init d p 1/2", LineKind::Operand, 23),
    ("k_sem_take @s K_TICKS(0)", LineKind::Range, 15),
    ("k_sem_take @s K_TICKS(0000000)", LineKind::Range, 15),
    ("k_sem_take @s K_TICKS(1000001)", LineKind::Range, 15),
    ("k_sem_take @s K_TICKS(9999999)", LineKind::Range, 15),
    ("k_sem_take @s K_TICKS(00000001)", LineKind::Operand, 15),
    ("k_sem_take @s K_TICKS()", LineKind::Operand, 15),
    ("k_sem_take @s K_TICKS", LineKind::Operand, 15),
    ("k_sem_take @s K_TICKS(5", LineKind::Operand, 15),
    ("k_sem_take @s K_TICKS(5))", LineKind::Operand, 15),
    ("k_sem_take @s K_TICKS(0)x", LineKind::Operand, 15),
    ("k_sem_take @s K_TICKS((5)", LineKind::Operand, 15),
    ("k_sem_take @s K_TICKS(0x5)", LineKind::Operand, 15),
    ("k_sem_take @s K_TICKS(-1)", LineKind::Operand, 15),
    ("k_sem_take @s K_TICKS(r0)", LineKind::Operand, 15),
    ("k_sem_take @s k_ticks(5)", LineKind::Operand, 15),
    ("k_sem_take @s K_MSEC(5)", LineKind::Operand, 15),
    ("k_sem_take @s K_TICKS (5)", LineKind::Operand, 15),
    ("k_sem_take @s (5)", LineKind::Operand, 15),
    ("k_sem_take @s K_TICKS(5) 1", LineKind::Extra, 26),
    ("repeat K_TICKS(3)", LineKind::Operand, 8),
    ("k_timer_start @tm", LineKind::Missing, 18),
    ("k_timer_start @tm K_TICKS(3)", LineKind::Operand, 19),
    ("k_timer_start @tm 4294967296", LineKind::Range, 19),
    ("k_timer_stop @tm now", LineKind::Extra, 18),
    ("k_timer_status_get @tm", LineKind::Missing, 23),
    ("k_timer_status_get @tm 0", LineKind::Operand, 24),
    ("k_timer_status_sync @tm r8", LineKind::Operand, 25),
    ("k_timer_status @tm r0", LineKind::UnknownWord, 1),
    ("k_object_alloc timer r0", LineKind::Operand, 16),
];

/// Whether a line has this canonical line, and that reads back to the same instruction.
fn reads_as(alloc: Global, line: &[u8], canonical: &[u8]) -> bool
    requires { length line.now < 1000 }
{
    match parse_line(line) {
        Ok(instr) => prints_as(alloc, &instr, canonical),
        Err(_) => false,
    }
}

fn prints_as(alloc: Global, instr: &Instr, canonical: &[u8]) -> bool
    requires { IsTrue (is_line instr.now) }
{
    match print_line(alloc, instr) {
        Ok(text) => text.as_slice() == canonical && reads_to(canonical, instr),
        Err(_) => false,
    }
}

fn reads_to(line: &[u8], instr: &Instr) -> bool {
    if line.len() >= 1000 {
        return false;
    }
    match parse_line(line) {
        Ok(again) => again == *instr,
        Err(_) => false,
    }
}

fn is_refused(line: &[u8], fault: LineFault) -> bool
    requires { length line.now < 1000 }
{
    match parse_line(line) {
        Ok(_) => false,
        Err(found) => found == fault,
    }
}

#[test]
fn canonical_lines_are_read(rt: HostRuntime) {
    for (line, canonical) in LINES {
        assert!(rt; line.len() < 1000);
        assert!(rt; reads_as(rt.alloc(), line.as_bytes(), canonical.as_bytes()));
    }
}

#[test]
fn wrong_lines_are_refused(rt: HostRuntime) {
    for (line, kind, column) in REFUSED {
        assert!(rt; line.len() < 1000);
        let fault = LineFault {
            kind: *kind,
            column: *column,
        };
        assert!(rt; is_refused(line.as_bytes(), fault));
    }
}
