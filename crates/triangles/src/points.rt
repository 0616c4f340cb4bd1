// Reading a line of text as a point, in lines like those of a request but for the error and the number of words.
ghost use Rattle.std.specs.Prelude.{◌≡◌, [], ◌∷◌, map};
ghost use Rattle.std.specs.Option.{option_map};
ghost use Rattle.triangles.specs.PointLine.{point_line, point_of};
ghost use Rattle.triangles.specs.Word.{given};

use crate::word::{first_words, number};
pub use dcel::Site;

// A line that is neither blank nor a remark and says no point.
#[derive(Clone, Copy, Debug, PartialEq, Eq)]
pub struct NotAPoint;

// Which point a line says, without its end; None for a blank line or a remark.
pub fn read_point(line: &[u8]) -> Result<Option<Site>, NotAPoint>
    ensures { result ≡ point_line line.now }
{
    let ([one, two, three, four], _) = first_words(line);
    let Some(one) = one else {
        return Ok(None);
    };
    let point = point(one, two, three, four).ok_or(NotAPoint)?;
    Ok(Some(point))
}

// The point of three words, neither more nor fewer.
#[tactic(auto, unfolding(crate::specs::PointLine::point_of, crate::specs::PointLine::of_numbers))]
fn point(one: &[u8], two: Option<&[u8]>, three: Option<&[u8]>, four: Option<&[u8]>) -> Option<Site>
    ensures { result ≡ point_of (one.now ∷ given (map (option_map (λ w. w.now)) (two.entry ∷ three.entry ∷ four.entry ∷ []))) }
{
    let (Some(two), Some(three), None) = (two, three, four) else {
        return None;
    };
    Some(Site {
        x: number(one)?,
        y: number(two)?,
        data: number(three)?,
    })
}
