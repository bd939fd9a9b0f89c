//! How a fault of a description is written.

ghost use Rattle.std.specs.Prelude.{◌≡◌, IfOk, string_bytes};
ghost use Rattle.um_document.specs.FaultTexts as texts;

use crate::fault::ImageFault;
use std::alloc::Global;
use std::fmt::Write;
use um_base::OutOfMemory;
use um_script::LineKind;

fn line_kind_word(kind: LineKind) -> &'static str
    ensures { result.now ≡ texts.line_kind_word kind }
{
    match kind {
        LineKind::UnknownWord => "UnknownWord",
        LineKind::Missing => "Missing",
        LineKind::Operand => "Operand",
        LineKind::Range => "Range",
        LineKind::Extra => "Extra",
    }
}

fn area_word(stacks: bool) -> &'static str
    ensures { result.now ≡ texts.area_word stacks }
{
    if stacks { "stacks" } else { "partitions" }
}

/// The text of a fault: its kind, and where it stands.
pub fn fault_text(alloc: Global, fault: &ImageFault) -> Result<String, OutOfMemory>
    ensures { IfOk result (λ text. string_bytes text ≡ texts.fault_text fault.now) }
{
    let mut text = String::new(alloc);
    let written = match fault {
        ImageFault::NotToml => write!(text, "NotToml"),
        ImageFault::Version => write!(text, "Version"),
        ImageFault::MissingKey(spot) => write!(text, "MissingKey {}", spot.as_str()),
        ImageFault::WrongType(spot) => write!(text, "WrongType {}", spot.as_str()),
        ImageFault::UnknownKey(spot) => write!(text, "UnknownKey {}", spot.as_str()),
        ImageFault::BadName(spot) => write!(text, "BadName {}", spot.as_str()),
        ImageFault::Duplicate(spot) => write!(text, "Duplicate {}", spot.as_str()),
        ImageFault::UnknownName(spot) => write!(text, "UnknownName {}", spot.as_str()),
        ImageFault::Limit {
            counted,
            number,
            spot,
        } => write!(
            text,
            "Limit {} {} {}",
            counted.as_str(),
            *number,
            spot.as_str()
        ),
        ImageFault::Line { kind, spot, column } => write!(
            text,
            "Line {} {}:{}",
            line_kind_word(*kind),
            spot.as_str(),
            *column
        ),
        ImageFault::Block(spot) => write!(text, "Block {}", spot.as_str()),
        ImageFault::LineName { spot, column } => {
            write!(text, "LineName {}:{}", spot.as_str(), *column)
        }
        ImageFault::ScriptOrder(spot) => write!(text, "ScriptOrder {}", spot.as_str()),
        ImageFault::Weight => write!(text, "Weight"),
        ImageFault::Layout { stacks, need, have } => {
            write!(text, "Layout {} {} {}", area_word(*stacks), *need, *have)
        }
        ImageFault::Memory => write!(text, "Memory"),
    };
    match written {
        Ok(()) => Ok(text),
        Err(_) => Err(OutOfMemory),
    }
}
