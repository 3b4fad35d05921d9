ghost use Rattle.std.specs.Prelude.{◌≡◌};
ghost use Rattle.index_file.specs.Private.Tables.{IsSpan, part_of};

/// Where a term stands in the text of all terms.
#[derive(Clone, Copy)]
pub(crate) struct Span {
    pub(crate) from: u32,
    pub(crate) to: u32,
}

/// A part of a text.
#[tactic(auto, unfolding(crate::specs::Private::Tables::part_of))]
#[inline(always)]
pub(crate) fn part(text: &[u8], span: Span) -> &[u8]
    requires { IsSpan text.now span }
    ensures { result.now ≡ part_of text.now span }
{
    &text[span.from as usize..span.to as usize]
}
