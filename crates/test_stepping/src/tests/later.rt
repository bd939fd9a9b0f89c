//! A look for a thread that was aborted, which comes when the thread waits again in a later life.

ghost use Rattle.std.specs.Prelude.{◌≡◌, ◌<◌, length};
ghost use Rattle.um_base.specs.Lawful.{IsLawful};
ghost use Rattle.um_machine.specs.Memory.{rodata_of};

use std::test::Fail;
use um_base::{Act, Image};
use um_core::Core;
use um_image::read_image;
use um_samples::LATER_LIFE;

/// Has a processor make this many steps, or fewer if it can make no other one. Returns how many it made.
fn steps(core: &mut Core, image: &Image, cpu: u8, most: u32) -> u32
    requires lawful { IsLawful image.now }
    requires rodata { core.old.sites.rodata ≡ rodata_of image.now }
    requires three { length core.old.processors ≡ 3 }
    requires cpu { cpu < 3 }
    ensures rodata { core.new.sites.rodata ≡ rodata_of image.now }
    ensures three { length core.new.processors ≡ 3 }
{
    for made in 0..most {
        if !core.step(image, cpu) {
            return made;
        }
    }
    most
}

/// The first processor has the thread wait, and the second one aborts it. Then the third one makes all steps that it can, by which the thread
/// is woken, ends and waits again. The look of the second one finds nobody.
#[test]
fn a_look_finds_nobody_of_a_later_life(rt: HostRuntime) -> Result<(), Fail> {
    let image = match read_image(rt.alloc(), LATER_LIFE.as_bytes()) {
        Ok(image) => image,
        Err(_) => return Err(Fail::new("refused")),
    };
    let mut core = Core::boot(rt.alloc(), &image, 3, 100)?;
    let waits = steps(&mut core, &image, 0, 7);
    assert_eq!(rt; waits, 7);
    let aborts = steps(&mut core, &image, 1, 4);
    assert_eq!(rt; aborts, 4);
    let lives = steps(&mut core, &image, 2, 1000);
    assert_eq!(rt; lives, 318);
    let looks = steps(&mut core, &image, 1, 1000);
    assert_eq!(rt; looks, 139);
    let mut starts: usize = 0;
    for event in core.into_sites().events() {
        match event.act {
            Act::Cut { .. } => assert!(rt; false),
            Act::Start { .. } => starts = starts.saturating_add(1),
            _ => {}
        }
    }
    assert!(rt; starts == 1);
    Ok(())
}
