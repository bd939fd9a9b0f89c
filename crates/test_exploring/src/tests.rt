//! What can come next, whether any run comes to what is asked, and how runs end.

ghost use Rattle.std.specs.Prelude.{◌<◌, ◌^◌, IfOk};
ghost use Rattle.um_base.specs.Lawful.{IsLawful};

use std::alloc::Global;
use std::process::Abort;
use std::test::Fail;
use um_base::Image;
use um_explore::{Endings, Finding, Next, ends, find, next_lines};
use um_image::read_image;
use um_question::{Asking, fits, read_question};
use um_samples::{LAST_BYTE, LAST_BYTE_RUN};

/// What the search answers to the text of a question.
fn answer(alloc: Global, image: &Image, text: &str, most: usize) -> Result<Finding, Fail>
    requires lawful { IsLawful image.now }
    requires few { most < 2 ^ 32 }
{
    match read_question(alloc, image, text.as_bytes())? {
        Asking::Is(question) => Ok(find(alloc, image, &question, most)?),
        Asking::Unknown { .. } => Err(Fail::new("unknown")),
    }
}

/// The image of a description.
fn image_of(alloc: Global, description: &str) -> Result<Image, Fail>
    ensures { IfOk result IsLawful }
{
    match read_image(alloc, description.as_bytes()) {
        Ok(image) => Ok(image),
        Err(_) => Err(Fail::new("refused")),
    }
}

/// Compares what can come next in a text with these lines.
fn comes(rt: &impl Abort, alloc: Global, image: &Image, text: &str, lines: &str) -> Result<(), Fail>
    requires { IsLawful image.now }
{
    if text.len() > 100_000 {
        return Err(Fail::new("long"));
    }
    match next_lines(alloc, image, text.as_bytes())? {
        Next::Lines(next) => assert!(rt; next.as_slice() == lines.as_bytes()),
        Next::NoStep { .. } => assert!(rt; lines == "no step"),
    }
    Ok(())
}

#[test]
fn lines_come_next(rt: HostRuntime) -> Result<(), Fail> {
    let alloc = rt.alloc();
    let image = image_of(alloc, LAST_BYTE)?;
    comes(&rt, alloc, &image, "", "a begin m 1\n")?;
    comes(
        &rt,
        alloc,
        &image,
        "a begin m 1\n",
        "a store 0x2000001f 1 0xab\n",
    )?;
    comes(&rt, alloc, &image, "a begin m 2\n", "no step")?;
    comes(&rt, alloc, &image, "a begin m 1", "no step")?;
    Ok(())
}

#[test]
fn words_fit(rt: HostRuntime) {
    assert!(rt;
        fits(
            "a store * 1 *".as_bytes(),
            "a store 0x2000001f 1 0xab\n".as_bytes()
        )
    );
    assert!(rt; fits("* begin m 2".as_bytes(), "a begin m 2\n".as_bytes()));
    assert!(rt;
        !fits(
            "a store *".as_bytes(),
            "a store 0x2000001f 1 0xab\n".as_bytes()
        )
    );
    assert!(rt; !fits("a begin m 2 *".as_bytes(), "a begin m 2\n".as_bytes()));
    assert!(rt; !fits("a begin m 2".as_bytes(), "a begin m 3\n".as_bytes()));
    assert!(rt; !fits("".as_bytes(), "a begin m 3\n".as_bytes()));
}

#[test]
fn what_is_asked_is_found_or_never_comes(rt: HostRuntime) -> Result<(), Fail> {
    let alloc = rt.alloc();
    let image = image_of(alloc, LAST_BYTE)?;
    match answer(alloc, &image, "a fatal * access", 1000)? {
        Finding::Found(text) => assert!(rt; text.as_slice() == LAST_BYTE_RUN.as_bytes()),
        _ => assert!(rt; false),
    }
    match answer(alloc, &image, "a reads 0x20000020/1", 1000)? {
        Finding::Never { states } => assert!(rt; states > 5),
        _ => assert!(rt; false),
    }
    match answer(alloc, &image, "a reads 0x20000020/1", 2)? {
        Finding::Unknown { states, unseen } => assert!(rt; states == 3 && unseen == 1),
        _ => assert!(rt; false),
    }
    Ok(())
}

#[test]
fn a_run_ends_in_one_way(rt: HostRuntime) -> Result<(), Fail> {
    let alloc = rt.alloc();
    let image = image_of(alloc, LAST_BYTE)?;
    match ends(alloc, &image, 1000)? {
        Endings::Ends(text) => assert!(rt;
            text.starts_with("end 1: 1 states, 8 events\n".as_bytes())
        ),
        Endings::Unknown { .. } => assert!(rt; false),
    }
    Ok(())
}
