// The limits on the tokens of a rule.
ghost use Rattle.std.specs.Prelude.{◌≡◌, ◌<◌, ◌≤◌, length, MatchResult};
ghost use Rattle.grammar.specs.declared.Refusal.TheVariants.{TooManyTokens, TooDeep, TooManyClaims};
ghost use Rattle.grammar.specs.Limits.{token_limit, claim_limit, claiming, count, FirstDeep, Shallow, Crowding};
ghost use Rattle.rule.specs.Stored.{symbols_of, place_in, Caused};

use crate::tokens::Tokens;
use grammar::{Refusal, Tag};

const TOKEN_LIMIT: usize = 500;

const DEPTH_LIMIT: usize = 16;

const CLAIM_LIMIT: u8 = 60;

// The 501st token is too many.
pub(crate) fn few(tokens: &Tokens) -> Result<(), Refusal>
    ensures { MatchResult result (λ _. length (symbols_of tokens.now) ≤ token_limit) (λ e. (e ≡ TooManyTokens (place_in tokens.now token_limit)) × (token_limit < length (symbols_of tokens.now))) }
{
    if tokens.len() > TOKEN_LIMIT {
        return Err(Refusal::TooManyTokens(tokens.place(TOKEN_LIMIT)));
    }
    Ok(())
}

// A `(` is too deep with which `(` less `)` so far exceeds 16. One walk counts both and finds that token.
pub(crate) fn shallow(tokens: &Tokens) -> Result<(), Refusal>
    ensures { MatchResult result (λ _. Shallow (symbols_of tokens.now)) (λ e. Caused TooDeep tokens.now (FirstDeep (symbols_of tokens.now)) e) }
{
    let mut opened: usize = 0;
    let mut closed: usize = 0;
    for spot in tokens.spots() {
        match spot.tag {
            Tag::LeftRound => {
                opened += 1;
                if opened.saturating_sub(closed) > DEPTH_LIMIT {
                    return Err(Refusal::TooDeep(spot.place));
                }
            }
            Tag::RightRound => closed += 1,
            _ => {}
        }
    }
    Ok(())
}

// How many claims there are; the 61st `[` is too many. One walk counts them and finds that one, so they are not counted by a chain.
pub(crate) fn uncrowded(tokens: &Tokens) -> Result<u8, Refusal>
    ensures { MatchResult result (λ n. (n ≡ count claiming (symbols_of tokens.now)) × (n ≤ claim_limit)) (λ e. Caused TooManyClaims tokens.now (Crowding (symbols_of tokens.now)) e) }
{
    let mut claims: u8 = 0;
    for spot in tokens.spots() {
        if spot.tag == Tag::LeftSquare {
            if claims == CLAIM_LIMIT {
                return Err(Refusal::TooManyClaims(spot.place));
            }
            claims += 1;
        }
    }
    Ok(claims)
}
