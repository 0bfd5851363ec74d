//! Tokens, and the white space before them.

ghost use Rattle.std.specs.Prelude.{◌≡◌, ◌++◌, [], ◌∷◌, OnOk, pos};
ghost use Rattle.hhas_lex.specs.Spaced.{text_of};
ghost use Rattle.hhas_lex.specs.Spelling.{spelling};
ghost use Rattle.hhas_lex.specs.Tokens as token;
ghost use Rattle.hhbc_repo.specs.Canonical.{label_called};
ghost use Rattle.hhbc_repo.specs.CanonicalText.{indent, line, spaced, tagged, tight, type_pieces};
ghost use Rattle.hhbc_repo.specs.WrittenTypes.{canonical_type};

use hack_values::{NoMemory, Text, push_literal};
use itoa::Buffer;
use type_lattice::{HType, push_type};

/// Ends the line, and begins one within so many braces.
fn push_line(out: &mut Text, depth: usize) -> Result<(), NoMemory>
    ensures { OnOk result (out.new ≡ out.old ++ 10 ∷ indent depth) }
{
    out.append(b"\n")?;
    for _ in 0..depth {
        out.append(b"  ")?;
    }
    Ok(())
}

/// A line that begins with a word.
pub(crate) fn line_word(out: &mut Text, depth: usize, word: &[u8]) -> Result<(), NoMemory>
    ensures { OnOk result (out.new ≡ out.old ++ text_of (line depth (token.Word word.now) ∷ [])) }
{
    push_line(out, depth)?;
    out.append(word)
}

/// A line that begins with a directive.
pub(crate) fn line_directive(out: &mut Text, depth: usize, word: &[u8]) -> Result<(), NoMemory>
    ensures { OnOk result (out.new ≡ out.old ++ text_of (line depth (token.Directive word.now) ∷ [])) }
{
    push_line(out, depth)?;
    out.append(b".")?;
    out.append(word)
}

/// A line that begins with a closing brace.
pub(crate) fn line_close(out: &mut Text, depth: usize) -> Result<(), NoMemory>
    ensures { OnOk result (out.new ≡ out.old ++ text_of (line depth (token.Mark 125) ∷ [])) }
{
    push_line(out, depth)?;
    out.append(b"}")
}

/// An opening brace.
pub(crate) fn spaced_open(out: &mut Text) -> Result<(), NoMemory>
    ensures { OnOk result (out.new ≡ out.old ++ text_of (spaced (token.Mark 123) ∷ [])) }
{
    out.append(b" {")
}

pub(crate) fn spaced_word(out: &mut Text, word: &[u8]) -> Result<(), NoMemory>
    ensures { OnOk result (out.new ≡ out.old ++ text_of (spaced (token.Word word.now) ∷ [])) }
{
    out.append(b" ")?;
    out.append(word)
}

pub(crate) fn spaced_directive(out: &mut Text, word: &[u8]) -> Result<(), NoMemory>
    ensures { OnOk result (out.new ≡ out.old ++ text_of (spaced (token.Directive word.now) ∷ [])) }
{
    out.append(b" .")?;
    out.append(word)
}

pub(crate) fn push_local(out: &mut Text, name: &[u8]) -> Result<(), NoMemory>
    ensures { OnOk result (out.new ≡ out.old ++ spelling (token.Local name.now)) }
{
    out.append(b"$")?;
    out.append(name)
}

pub(crate) fn spaced_local(out: &mut Text, name: &[u8]) -> Result<(), NoMemory>
    ensures { OnOk result (out.new ≡ out.old ++ text_of (spaced (token.Local name.now) ∷ [])) }
{
    out.append(b" ")?;
    push_local(out, name)
}

pub(crate) fn push_int(out: &mut Text, number: i64) -> Result<(), NoMemory>
    ensures { OnOk result (out.new ≡ out.old ++ spelling (token.Integer number)) }
{
    out.append(Buffer::new().format(number).as_bytes())
}

pub(crate) fn spaced_int(out: &mut Text, number: i64) -> Result<(), NoMemory>
    ensures { OnOk result (out.new ≡ out.old ++ text_of (spaced (token.Integer number) ∷ [])) }
{
    out.append(b" ")?;
    push_int(out, number)
}

pub(crate) fn push_count(out: &mut Text, number: u16) -> Result<(), NoMemory>
    ensures { OnOk result (out.new ≡ out.old ++ spelling (token.Integer (pos number))) }
{
    out.append(Buffer::new().format(number).as_bytes())
}

pub(crate) fn spaced_count(out: &mut Text, number: u16) -> Result<(), NoMemory>
    ensures { OnOk result (out.new ≡ out.old ++ text_of (spaced (token.Integer (pos number)) ∷ [])) }
{
    out.append(b" ")?;
    push_count(out, number)
}

pub(crate) fn spaced_string(out: &mut Text, bytes: &[u8]) -> Result<(), NoMemory>
    ensures { OnOk result (out.new ≡ out.old ++ text_of (spaced (token.Str bytes.now) ∷ [])) }
{
    out.append(b" ")?;
    push_literal(out, bytes)
}

/// A word and its colon.
fn push_tag(out: &mut Text, word: &[u8]) -> Result<(), NoMemory>
    ensures { OnOk result (out.new ≡ out.old ++ 32 ∷ (word.now ++ 58 ∷ [])) }
{
    out.append(b" ")?;
    out.append(word)?;
    out.append(b":")
}

pub(crate) fn tagged_word(out: &mut Text, word: &[u8], name: &[u8]) -> Result<(), NoMemory>
    ensures { OnOk result (out.new ≡ out.old ++ text_of (tagged word.now (token.Word name.now))) }
{
    push_tag(out, word)?;
    out.append(name)
}

pub(crate) fn tagged_local(out: &mut Text, word: &[u8], name: &[u8]) -> Result<(), NoMemory>
    ensures { OnOk result (out.new ≡ out.old ++ text_of (tagged word.now (token.Local name.now))) }
{
    push_tag(out, word)?;
    push_local(out, name)
}

pub(crate) fn tagged_string(out: &mut Text, word: &[u8], bytes: &[u8]) -> Result<(), NoMemory>
    ensures { OnOk result (out.new ≡ out.old ++ text_of (tagged word.now (token.Str bytes.now))) }
{
    push_tag(out, word)?;
    push_literal(out, bytes)
}

pub(crate) fn tagged_int(out: &mut Text, word: &[u8], number: i64) -> Result<(), NoMemory>
    ensures { OnOk result (out.new ≡ out.old ++ text_of (tagged word.now (token.Integer number))) }
{
    push_tag(out, word)?;
    push_int(out, number)
}

pub(crate) fn tagged_count(out: &mut Text, word: &[u8], number: u16) -> Result<(), NoMemory>
    ensures { OnOk result (out.new ≡ out.old ++ text_of (tagged word.now (token.Integer (pos number)))) }
{
    push_tag(out, word)?;
    push_count(out, number)
}

/// A label by its number.
pub(crate) fn push_label(out: &mut Text, label: usize) -> Result<(), NoMemory>
    ensures { OnOk result (out.new ≡ out.old ++ label_called label) }
{
    out.append(b"L")?;
    out.append(Buffer::new().format(label).as_bytes())
}

/// The line of a label.
pub(crate) fn line_label(out: &mut Text, depth: usize, label: usize) -> Result<(), NoMemory>
    ensures { OnOk result (out.new ≡ out.old ++ text_of (line depth (token.Word (label_called label)) ∷ tight (token.Mark 58) ∷ [])) }
{
    push_line(out, depth)?;
    push_label(out, label)?;
    out.append(b":")
}

/// A type, given the names of all classes.
pub(crate) fn spaced_type(out: &mut Text, classes: &[Text], t: &HType) -> Result<(), NoMemory>
    ensures { OnOk result (out.new ≡ out.old ++ text_of (type_pieces (canonical_type classes.now t.now))) }
{
    out.append(b" ")?;
    push_type(out, t, classes)
}
