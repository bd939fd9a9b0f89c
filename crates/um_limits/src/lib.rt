//! The law of the limits: which number each of them is. So a definition that cites a limit says what it seems to say.
#![tactic(auto)]

ghost use Rattle.std.specs.Prelude.{◌≡◌};
ghost use Rattle.um_base.specs.declared.limits.TheConstants.{
  AREA_ENTRY,
  AREA_SIZE,
  BOOTS,
  DOMAINS,
  DOMAIN_PARTITIONS,
  DYNAMIC_OBJECTS,
  FUTEXES,
  FUTEX_CELL,
  JOIN_CELL,
  LINES,
  MOST_WEIGHT,
  NAMED_PARTITIONS,
  OBJECTS,
  OBJECT_STEP,
  PARTITIONS,
  PARTITION_AREA,
  PIECE,
  POOLS,
  RODATA,
  ROWS,
  SCRIPTS,
  STACK_AREA,
  STATIC_ROWS,
  STATIC_THREADS,
  THREADS,
};

/// Each limit is this number:
/// - 32 thread indices, of which static thread objects have at most 28, and at most 28 threads that are ready from the beginning;
/// - 128 rows, of which static objects have at most 96; behind the cells of the rows, one for joins and one for futexes;
/// - at most 8 domains of 16 partitions, 32 partitions, 4 pools, 32 scripts of 1,000 lines, 16 futexes;
/// - 65,536 bytes of a partition, a stack and read-only data, 256 of a message or a name;
/// - a weight of 400,000;
/// - the areas of memory, and the addresses of objects, 64 bytes apart.
pub fn every_limit()
    ensures threads { (THREADS ≡ 32) × (STATIC_THREADS ≡ 28) × (BOOTS ≡ 28) }
    ensures rows { (ROWS ≡ 128) × (STATIC_ROWS ≡ 96) × (JOIN_CELL ≡ 128) × (FUTEX_CELL ≡ 129) }
    ensures lists { (DOMAINS ≡ 8) × (PARTITIONS ≡ 32) × (POOLS ≡ 4) × (SCRIPTS ≡ 32) × (LINES ≡ 1000)
        × (FUTEXES ≡ 16) × (DOMAIN_PARTITIONS ≡ 16) × (NAMED_PARTITIONS ≡ 4) }
    ensures sizes { (AREA_ENTRY ≡ 65536) × (PIECE ≡ 256) × (MOST_WEIGHT ≡ 400000) }
    ensures memory { (RODATA ≡ 134217728) × (PARTITION_AREA ≡ 536870912) × (STACK_AREA ≡ 537395200)
        × (AREA_SIZE ≡ 524288) }
    ensures objects { (OBJECTS ≡ 1073741824) × (DYNAMIC_OBJECTS ≡ 1207959552) × (OBJECT_STEP ≡ 64) }
{}
