// Reading a line of text as a request. That a line says a point is read in a like way, each with its own error and number of words.
ghost use Rattle.std.specs.Prelude.{◌≡◌, [], ◌∷◌, map};
ghost use Rattle.std.specs.Option.{option_map};
ghost use Rattle.triangles.specs.Line.{line_says, request_of, alone as says_alone, with_one as says-with-one, with_two as says-with-two, with_three as says-with-three};
ghost use Rattle.triangles.specs.Word.{given};

use crate::request::Request;
use crate::word::{first_words, next_word, number};
use dcel::Site;
use std::fmt;
use std::fmt::{Display, Formatter, Write};

// A line that is neither blank nor a remark and says no request.
#[derive(Clone, Copy, Debug, PartialEq, Eq)]
pub struct NotUnderstood;

impl Display for NotUnderstood {
    ghost use Rattle.std.specs.Prelude.{Some, codes};

    ghost output = { λ _. Some (codes "not understood") };

    fn fmt<W: Write>(&self, f: &mut Formatter<W>) -> fmt::Result {
        f.write_str("not understood")
    }
}

// What a line says, without its end; None for a blank line or a remark.
pub fn read_line(line: &[u8]) -> Result<Option<Request>, NotUnderstood>
    ensures { result ≡ line_says line.now }
{
    let ([verb, one, two, three], rest) = first_words(line);
    let Some(verb) = verb else {
        return Ok(None);
    };
    let (four, _) = next_word(rest);
    let request = request(verb, one, two, three, four).ok_or(NotUnderstood)?;
    Ok(Some(request))
}

// The request of a verb and up to three words more; four are too many.
#[tactic(auto, unfolding(crate::specs::Line::request_of))]
fn request(
    verb: &[u8],
    one: Option<&[u8]>,
    two: Option<&[u8]>,
    three: Option<&[u8]>,
    four: Option<&[u8]>,
) -> Option<Request>
    ensures { result ≡ request_of (verb.now ∷ given (map (option_map (λ w. w.now)) (one.entry ∷ two.entry ∷ three.entry ∷ four.entry ∷ []))) }
{
    match (one, two, three, four) {
        (None, ..) => alone(verb),
        (Some(one), None, ..) => with_one(verb, one),
        (Some(one), Some(two), None, _) => with_two(verb, one, two),
        (Some(one), Some(two), Some(three), None) => with_three(verb, one, two, three),
        _ => None,
    }
}

#[tactic(auto, unfolding(crate::specs::Line::alone))]
fn alone(verb: &[u8]) -> Option<Request>
    ensures { result ≡ says_alone verb.now }
{
    match verb {
        b"hull" => Some(Request::Hull),
        b"clear" => Some(Request::Clear),
        _ => None,
    }
}

#[tactic(auto, unfolding(crate::specs::Line::with_one))]
fn with_one(verb: &[u8], one: &[u8]) -> Option<Request>
    ensures { result ≡ says-with-one verb.now one.now }
{
    match verb {
        b"all" => match one {
            b"faces" => Some(Request::AllFaces),
            _ => None,
        },
        b"remove" => Some(Request::Remove(number(one)?)),
        b"around" => Some(Request::Around(number(one)?)),
        _ => None,
    }
}

#[tactic(auto, unfolding(crate::specs::Line::with_two))]
fn with_two(verb: &[u8], one: &[u8], two: &[u8]) -> Option<Request>
    ensures { result ≡ says-with-two verb.now one.now two.now }
{
    let x = number(one)?;
    let y = number(two)?;
    match verb {
        b"locate" => Some(Request::Locate(x, y)),
        b"nearest" => Some(Request::Nearest(x, y)),
        _ => None,
    }
}

#[tactic(auto, unfolding(crate::specs::Line::with_three))]
fn with_three(verb: &[u8], one: &[u8], two: &[u8], three: &[u8]) -> Option<Request>
    ensures { result ≡ says-with-three verb.now one.now two.now three.now }
{
    let site = Site {
        x: number(one)?,
        y: number(two)?,
        data: number(three)?,
    };
    match verb {
        b"insert" => Some(Request::Insert(site)),
        _ => None,
    }
}
