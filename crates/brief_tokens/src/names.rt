// The words that no name of a brief may be.

ghost use Rattle.std.specs.Prelude.{◌≡◌};
ghost use Rattle.brief_tokens.specs.Names.{is_brief_word, is_board_word};

/// Whether this is a word of briefs and none of plans.
pub fn is_brief_word(name: &str) -> bool
    ensures { result ≡ is_brief_word name.now }
{
    matches!(name, "brief" | "device" | "byte" | "any")
}

/// Whether this is a word of the second version of briefs alone.
pub fn is_board_word(name: &str) -> bool
    ensures { result ≡ is_board_word name.now }
{
    matches!(
        name,
        "with" | "group" | "extend" | "but" | "wr" | "rd" | "pec" | "sum"
    )
}
