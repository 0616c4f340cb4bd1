// A picture of triangles, as SVG.
use std::io;
use std::io::{BufWriter, Write};
use triangles::points::Site;

// What is drawn: the places from the left and the top on, with a margin around, so wide and high in all.
#[derive(Clone, Copy)]
struct Frame {
    left: u64,
    top: u64,
    margin: u64,
    wide: u64,
    high: u64,
}

pub fn draw<W: Write + Drop>(
    mut out: BufWriter<W>,
    places: &[Site],
    faces: &[[u64; 3]],
) -> io::Result<()> {
    let frame = Frame::around(places);
    frame.begin(&mut out)?;
    for face in faces {
        write!(out, "<polygon points=\"")?;
        for place in face.iter().filter_map(|v| places.get(*v as usize)) {
            frame.corner(&mut out, *place)?;
        }
        writeln!(out, "\"/>")?;
    }
    writeln!(out, "</g>\n</svg>")?;
    out.flush()
}

impl Frame {
    fn around(places: &[Site]) -> Frame {
        let left = places.iter().map(|p| p.x).min().unwrap_or(0);
        let right = places.iter().map(|p| p.x).max().unwrap_or(0);
        let bottom = places.iter().map(|p| p.y).min().unwrap_or(0);
        let top = places.iter().map(|p| p.y).max().unwrap_or(0);
        let width = right.saturating_sub(left);
        let height = top.saturating_sub(bottom);
        let margin = width.max(height) / 50 + 1;
        Frame {
            left,
            top,
            margin,
            wide: width.saturating_add(2 * margin),
            high: height.saturating_add(2 * margin),
        }
    }

    // The head of the picture. Lines are a thousandth of its longer side.
    fn begin<W: Write>(self, out: &mut W) -> io::Result<()> {
        let Frame { wide, high, .. } = self;
        let long = wide.max(high);
        let whole = long / 1000;
        let part = long % 1000;
        writeln!(
            out,
            "<svg xmlns=\"http://www.w3.org/2000/svg\" viewBox=\"0 0 {wide} {high}\">"
        )?;
        writeln!(
            out,
            "<g fill=\"#eef\" stroke=\"#225\" stroke-linejoin=\"round\" stroke-width=\"{whole}.{part:03}\">"
        )
    }

    // A corner of a triangle. In the picture y goes downwards.
    fn corner<W: Write>(self, out: &mut W, place: Site) -> io::Result<()> {
        let right = place
            .x
            .saturating_sub(self.left)
            .saturating_add(self.margin);
        let down = self.top.saturating_sub(place.y).saturating_add(self.margin);
        write!(out, "{right},{down} ")
    }
}
