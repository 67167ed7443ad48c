// Points drawn by numbers. A place is a coordinate with 1,000 added: 0 to 2,000.
ghost use Rattle.std.specs.Prelude.{◌≡◌, ◌≤◌};
ghost use Rattle.test_model.specs.Numbers.{kind_of, number_of_kind};

use crate::POINTS;
use crate::marks::Mark;
use crate::numbers::{id_of, next};
use geometry::MAX_FEATURES;
use std::fmt;
use test_parts::places::coordinate;

// A point of a batch: its identifier, its places, of which the first d count, and its mark while it is live.
#[derive(Clone, Copy)]
pub struct Point {
    pub id: u32,
    pub places: [u16; MAX_FEATURES],
    pub mark: Option<Mark>,
}

// How the points of a batch lie: anywhere, in five clusters, or all tied on -1, 0 and 1. `Other` keeps a number that is that of no kind: its points
// are tied, and it has no name.
#[derive(Clone, Copy)]
pub enum Kind {
    Wide,
    Clustered,
    Tied,
    Other(u32),
}

impl From<u32> for Kind {
    ghost from_gives = { λ n kind. kind ≡ kind_of n };

    fn from(n: u32) -> Kind {
        match n {
            0 => Kind::Wide,
            1 => Kind::Clustered,
            2 => Kind::Tied,
            _ => Kind::Other(n),
        }
    }
}

impl From<Kind> for u32 {
    ghost from_gives = { λ kind n. n ≡ number_of_kind kind };

    fn from(kind: Kind) -> u32 {
        match kind {
            Kind::Wide => 0,
            Kind::Clustered => 1,
            Kind::Tied => 2,
            Kind::Other(n) => n,
        }
    }
}

impl Kind {
    // A place of point p at coordinate m.
    fn place(self, p: usize, m: usize, n: u64) -> u16
        ensures { result ≤ 2000 }
    {
        match self {
            Kind::Wide => (n % 2001) as u16,
            Kind::Clustered => {
                let centre = (p % 5 + m % 5) % 5;
                centre as u16 * 450 + (n % 101) as u16
            }
            Kind::Tied | Kind::Other(_) => 999 + (n % 3) as u16,
        }
    }

    // The places of point p, and the last number drawn for them.
    pub fn draw(self, p: usize, seed: u64) -> ([u16; MAX_FEATURES], u64) {
        let mut places = [0; MAX_FEATURES];
        let mut n = seed;
        for (m, place) in places.iter_mut().enumerate() {
            n = next(n);
            *place = self.place(p, m, n);
        }
        (places, n)
    }

    // Points that are not live.
    pub fn draw_all(self, seed: u64) -> [Point; POINTS] {
        let mut points = [Point {
            id: 0,
            places: [0; MAX_FEATURES],
            mark: None,
        }; POINTS];
        let mut n = seed;
        for (p, point) in points.iter_mut().enumerate() {
            (point.places, n) = self.draw(p, n);
            point.id = id_of(p);
        }
        points
    }
}

impl fmt::Display for Kind {
    fn fmt<W: fmt::Write>(&self, f: &mut fmt::Formatter<W>) -> fmt::Result {
        f.write_str(match self {
            Kind::Wide => "wide",
            Kind::Clustered => "clustered",
            Kind::Tied => "tied",
            Kind::Other(_) => "",
        })
    }
}

pub fn coordinates(places: &[u16; MAX_FEATURES]) -> [i16; MAX_FEATURES] {
    places.map(coordinate)
}
