//! The directives of the language, with their texts.

ghost use Rattle.std.specs.Prelude.{◌≡◌};
ghost use Rattle.driver_asm.specs.Directives.{directive_named, directive_text};

/// A directive.
#[derive(Clone, Copy)]
pub enum Directive {
    Class,
    Entry,
    Text,
    Data,
    Word,
}

/// The text of a directive.
pub fn directive_text(directive: Directive) -> &'static str
    ensures { result.now ≡ directive_text directive }
{
    match directive {
        Directive::Class => ".class",
        Directive::Entry => ".entry",
        Directive::Text => ".text",
        Directive::Data => ".data",
        Directive::Word => ".word",
    }
}

/// The directive with a text.
#[tactic(auto, unfolding(crate::specs::Directives::directive_named))]
pub fn directive_named(text: &[u8]) -> Option<Directive>
    ensures { result ≡ directive_named text.now }
{
    if text == directive_text(Directive::Class).as_bytes() {
        Some(Directive::Class)
    } else if text == directive_text(Directive::Entry).as_bytes() {
        Some(Directive::Entry)
    } else if text == directive_text(Directive::Text).as_bytes() {
        Some(Directive::Text)
    } else if text == directive_text(Directive::Data).as_bytes() {
        Some(Directive::Data)
    } else if text == directive_text(Directive::Word).as_bytes() {
        Some(Directive::Word)
    } else {
        None
    }
}
