// The numbers given to the editor: why a call is refused, and what it is answered where it carries nothing else.
// Promise: every refusal and every reply has its number of document 01, as document 02 adds to them, by one definition (specs/Number.antt).
// Knows nothing of cells, tables or runs.
#![tactic(auto)]

ghost use Rattle.std.specs.Prelude.{◌≡◌};
ghost use Rattle.refusal.specs.Number.{refusal_number, reply_number};

// The conditions of document 01's table "Numbers given to the editor", by its trade words, and document 02's.
#[derive(Clone, Copy, Debug, PartialEq, Eq)]
pub enum Refusal {
    Length,
    Header,
    Chain,
    Record,
    Order,
    Full,
    Unsound,
    Buffer,
    Question,
    Finished,
    Ceiling,
}

// The answer of a call that gives nothing besides.
pub type Reply = Result<(), Refusal>;

// The number of a refusal.
impl From<Refusal> for u32 {
    ghost from_gives = { λ why n. n ≡ refusal_number why };

    fn from(why: Refusal) -> u32 {
        match why {
            Refusal::Length => 1,
            Refusal::Header => 2,
            Refusal::Chain => 3,
            Refusal::Record => 4,
            Refusal::Order => 5,
            Refusal::Full => 6,
            Refusal::Unsound => 7,
            Refusal::Buffer => 8,
            Refusal::Question => 9,
            Refusal::Finished => 10,
            Refusal::Ceiling => 11,
        }
    }
}

// The number of a reply: 0 is no refusal.
pub fn reply_number(reply: Reply) -> u32
    ensures { result ≡ reply_number reply }
{
    match reply {
        Ok(()) => 0,
        Err(why) => u32::from(why),
    }
}
