//! Shapes, and how they are written in SVG.

ghost use Rattle.std.specs.Prelude.{◌≡◌, ◌++◌, OnOk};
ghost use Rattle.std.specs.List.{flat_map};
ghost use Rattle.vp_pictures.specs.Shapes.{attribute, escape, escape_bytes, ink_word, shape_text};

use vp_base::{NoMemory, Word};
use vp_text::print_number;

/// What a text or a line is for, which gives its style.
#[derive(Clone, Copy, Debug, Drop, PartialEq, Eq)]
pub enum Ink {
    Site,
    Faint,
    Event,
    Commit,
    Message,
    Reply,
    Refusal,
    View,
    Idle,
    Life,
    Comes,
    Lost,
    Never,
    Cut,
    Heal,
}

/// A text with its left end, a line from one point to another, or a bar in a colour: one of twelve for views, and one for locks.
#[derive(Drop)]
pub enum Shape {
    Text {
        ink: Ink,
        x: u64,
        y: u64,
        text: Word,
    },
    Line {
        ink: Ink,
        x1: u64,
        y1: u64,
        x2: u64,
        y2: u64,
    },
    Bar {
        colour: u64,
        x: u64,
        y: u64,
        width: u64,
        height: u64,
    },
}

impl Ink {
    /// The class of the shapes.
    fn word(self) -> &'static [u8]
        ensures { result.now ≡ ink_word self }
    {
        match self {
            Ink::Site => b"h",
            Ink::Faint => b"n",
            Ink::Event => b"e",
            Ink::Commit => b"k",
            Ink::Message => b"m",
            Ink::Reply => b"r",
            Ink::Refusal => b"f",
            Ink::View => b"w",
            Ink::Idle => b"d",
            Ink::Life => b"l",
            Ink::Comes => b"a",
            Ink::Lost => b"x",
            Ink::Never => b"s",
            Ink::Cut => b"c",
            Ink::Heal => b"j",
        }
    }
}

/// Appends an attribute that is a number, after these bytes.
pub fn print_attribute(name: &[u8], number: u64, out: &mut Vec<u8>) -> Result<(), NoMemory>
    ensures { OnOk result (out.new.items ≡ out.old.items ++ attribute name.now number) }
{
    out.extend_from_slice(name)?;
    print_number(out, number)?;
    out.push(b'"')?;
    Ok(())
}

/// Appends a byte of a text. A byte that would begin an element or a reference, or end an attribute, is written as a reference.
fn print_escaped(byte: u8, out: &mut Vec<u8>) -> Result<(), NoMemory>
    ensures { OnOk result (out.new.items ≡ out.old.items ++ escape byte) }
{
    if byte == b'<' {
        out.extend_from_slice(b"&lt;")?;
    } else if byte == b'&' {
        out.extend_from_slice(b"&amp;")?;
    } else if byte == b'"' {
        out.extend_from_slice(b"&quot;")?;
    } else {
        out.push(byte)?;
    }
    Ok(())
}

fn print_all_escaped(text: &[u8], out: &mut Vec<u8>) -> Result<(), NoMemory>
    ensures { OnOk result (out.new.items ≡ out.old.items ++ escape_bytes text.now) }
{
    for byte in text {
        print_escaped(*byte, out)?;
    }
    Ok(())
}

/// Appends a shape.
pub fn print_shape(shape: &Shape, out: &mut Vec<u8>) -> Result<(), NoMemory>
    ensures { OnOk result (out.new.items ≡ out.old.items ++ shape_text shape.now) }
{
    match shape {
        Shape::Text { ink, x, y, text } => {
            out.extend_from_slice(b"<text class=\"")?;
            out.extend_from_slice(ink.word())?;
            print_attribute(b"\" x=\"", *x, out)?;
            print_attribute(b" y=\"", *y, out)?;
            out.extend_from_slice(b">")?;
            print_all_escaped(text.as_slice(), out)?;
            out.extend_from_slice(b"</text>\n")?;
            Ok(())
        }
        Shape::Line {
            ink,
            x1,
            y1,
            x2,
            y2,
        } => {
            out.extend_from_slice(b"<line class=\"")?;
            out.extend_from_slice(ink.word())?;
            print_attribute(b"\" x1=\"", *x1, out)?;
            print_attribute(b" y1=\"", *y1, out)?;
            print_attribute(b" x2=\"", *x2, out)?;
            print_attribute(b" y2=\"", *y2, out)?;
            out.extend_from_slice(b"/>\n")?;
            Ok(())
        }
        Shape::Bar {
            colour,
            x,
            y,
            width,
            height,
        } => {
            print_attribute(b"<rect class=\"v", *colour, out)?;
            print_attribute(b" x=\"", *x, out)?;
            print_attribute(b" y=\"", *y, out)?;
            print_attribute(b" width=\"", *width, out)?;
            print_attribute(b" height=\"", *height, out)?;
            out.extend_from_slice(b"/>\n")?;
            Ok(())
        }
    }
}

/// Appends shapes, one after the other.
pub fn print_shapes(shapes: &[Shape], out: &mut Vec<u8>) -> Result<(), NoMemory>
    ensures { OnOk result (out.new.items ≡ out.old.items ++ flat_map shape_text shapes.now) }
{
    for shape in shapes {
        print_shape(shape, out)?;
    }
    Ok(())
}
