//! The forms of names, file names and keys.
ghost use Rattle.std.specs.Prelude.{◌≡◌, ◌&&◌, not, bytes_eq};
ghost use Rattle.std.specs.List.{list_any};
ghost use Rattle.fz_lexer.specs.Bytes.{is_letter, is_name_byte, begins, every_byte};
ghost use Rattle.owner_catalog.specs.Forms.{has_form, is_catalog_name, is_reserved, is_table_name, is_file_name, is_key, is_file_byte, is_key_byte, is_byte_of};

/// What a text is to be.
#[derive(Clone, Copy)]
pub(crate) enum Form {
    Name,
    TableName,
    FileName,
    Key,
}

/// Whether a text is of a form.
#[tactic(auto, unfolding(crate::specs::Forms::is_table_name))]
pub(crate) fn has_form(form: Form, text: &str) -> bool
    ensures { result ≡ has_form form text.now }
{
    let bytes = text.as_bytes();
    match form {
        Form::Name => is_catalog_name(bytes),
        Form::TableName => is_catalog_name(bytes) && !is_reserved(text),
        Form::FileName => is_file_name(bytes),
        Form::Key => is_key(bytes),
    }
}

/// The words that programs reserve.
const RESERVED: [&str; 33] = [
    "fun", "fn", "let", "in", "case", "of", "inl", "inr", "if", "then", "else", "fst", "snd",
    "true", "false", "num", "text", "unit", "bool", "bag", "inf", "size", "sum", "clip", "least",
    "greatest", "map", "filter", "split", "union", "do", "release", "at",
];

fn is_one_of(words: &[&str], text: &str) -> bool
    ensures { result ≡ list_any (λ word. bytes_eq text.now word.now) words.now }
{
    words.iter().any(|word| text == *word)
}

fn is_reserved(text: &str) -> bool
    ensures { result ≡ is_reserved text.now }
{
    is_one_of(&RESERVED, text)
}

#[tactic(auto, unfolding(fz_lexer::specs::Bytes::is_letter))]
fn is_letter(b: u8) -> bool
    ensures { result ≡ is_letter b }
{
    97 <= b && b <= 122 || 65 <= b && b <= 90 || b == 95
}

#[tactic(auto, unfolding(fz_lexer::specs::Bytes::is_name_byte, fz_lexer::specs::Bytes::is_digit))]
fn is_name_byte(b: u8) -> bool
    ensures { result ≡ is_name_byte b }
{
    is_letter(b) || 48 <= b && b <= 57
}

fn begins_with_letter(text: &[u8]) -> bool
    ensures { result ≡ begins is_letter text.now }
{
    match text.first() {
        Some(byte) => is_letter(*byte),
        None => false,
    }
}

#[tactic(auto, unfolding(crate::specs::Forms::is_file_byte, crate::specs::Forms::is_key_byte))]
fn is_byte_of(form: Form, byte: u8) -> bool
    ensures { result ≡ is_byte_of form byte }
{
    match form {
        Form::Name | Form::TableName => is_name_byte(byte),
        Form::FileName => 32 <= byte,
        Form::Key => 32 < byte && byte != 127,
    }
}

fn every_byte(form: Form, text: &[u8]) -> bool
    ensures { result ≡ every_byte (is_byte_of form) text.now }
{
    text.iter().all(|byte| is_byte_of(form, *byte))
}

#[tactic(auto, unfolding(crate::specs::Forms::is_catalog_name))]
fn is_catalog_name(text: &[u8]) -> bool
    ensures { result ≡ is_catalog_name text.now }
{
    begins_with_letter(text) && every_byte(Form::Name, text) && text.len() <= 32
}

#[tactic(auto, unfolding(crate::specs::Forms::is_file_name))]
fn is_file_name(text: &[u8]) -> bool
    ensures { result ≡ is_file_name text.now }
{
    every_byte(Form::FileName, text) && 1 <= text.len() && text.len() <= 255
}

#[tactic(auto, unfolding(crate::specs::Forms::is_key))]
fn is_key(text: &[u8]) -> bool
    ensures { result ≡ is_key text.now }
{
    every_byte(Form::Key, text) && 1 <= text.len() && text.len() <= 64
}
