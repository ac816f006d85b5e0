// Cutting a whole text into tokens.
ghost use Rattle.std.specs.Prelude.{MatchResult};
ghost use Rattle.rule.specs.Stored.{Stores, Stops};

use crate::cutter::Cutter;
use crate::spelling::tag_of;
use crate::tokens::Tokens;
use grammar::Refusal;

impl<'a> Tokens<'a> {
    // All tokens of the text, as far as there is room; or the first bytes that are none.
    pub(crate) fn cut(text: &'a [u8]) -> Result<Tokens<'a>, Refusal>
        ensures { MatchResult result (λ t. Stores text.now t) (λ e. Stops text.now e) }
    {
        let mut tokens = Tokens::new(text);
        for token in Cutter::new(text) {
            let (token, place) = token?;
            let tag = tag_of(token, place)?;
            tokens.push(tag, place);
        }
        Ok(tokens)
    }
}
