// The points of the picture: at most 1,024, each of as many blocks as the others.
ghost use Rattle.std.specs.Prelude.{◌≤◌};

use crate::heights::height_of;
use lines::{Line, distance_of};
use sheets::Sheet;

// The most points, and half of them.
const MOST: usize = 1024;

const HALF: usize = 512;

// The output frames so far, how high the distance and the bound stand, and, where a line begins in the point's
// blocks, the frames before it.
#[derive(Clone, Copy)]
pub struct Point {
    pub at: u64,
    pub apart: u64,
    pub most: u64,
    pub begins: Option<u64>,
}

const NO_POINT: Point = Point {
    at: 0,
    apart: 0,
    most: 0,
    begins: None,
};

// The points that are kept, and of how many blocks each is; and the point that is not kept yet, with how many
// blocks it has.
#[derive(Clone, Copy)]
pub struct Chart {
    points: [Point; MOST],
    count: usize,
    stride: u64,
    held: u64,
    next: Point,
    ghost within: { count ≤ 1024 },
}

// Of two points the one with the larger distance, so that peaks are seen.
fn merged(a: Point, b: Point) -> Point {
    let mut p = if a.apart > b.apart { a } else { b };
    p.begins = a.begins.or(b.begins);
    p
}

// The open line after a block, as a point.
fn point_of(s: Sheet, line: Line) -> Point {
    Point {
        at: s.total.frames,
        apart: height_of(distance_of(line)),
        most: height_of(line.most),
        begins: if line.blocks == 1 {
            Some(s.closed.frames)
        } else {
            None
        },
    }
}

impl Chart {
    // No points yet.
    pub fn new() -> Chart {
        Chart {
            points: [NO_POINT; MOST],
            count: 0,
            stride: 1,
            held: 0,
            next: NO_POINT,
        }
    }

    // The points that are kept.
    pub fn points(&self) -> &[Point] {
        &self.points[..self.count]
    }

    // Room for a point: where there is none, one is made of each two.
    fn make_room(&mut self) {
        if self.count < MOST {
            return;
        }
        for k in 0..HALF {
            self.points[k] = merged(self.points[2 * k], self.points[2 * k + 1]);
        }
        self.count = HALF;
        self.stride = self.stride.saturating_mul(2);
    }

    // The point is kept, where there is room for it.
    fn keep(&mut self) {
        if self.count < MOST {
            self.points[self.count] = self.next;
            self.count += 1;
            self.held = 0;
        }
    }

    // The block that the sheet took last, by which a line is open.
    pub fn add_block(&mut self, s: Sheet) {
        let Some(line) = s.line else {
            return;
        };
        let p = point_of(s, line);
        self.next = if self.held == 0 {
            p
        } else {
            merged(self.next, p)
        };
        self.held = self.held.saturating_add(1);
        if self.held >= self.stride {
            self.make_room();
        }
        if self.held >= self.stride {
            self.keep();
        }
    }

    // No more blocks: the point that is not kept yet is.
    pub fn finish(&mut self) {
        if self.held > 0 {
            self.make_room();
            self.keep();
        }
    }
}
