// The kinds of query, and what the line of each holds. A new kind is a variant with its letters and its
// row here, and an arm in ask.rt.
ghost use Rattle.std.specs.Prelude.{◌≡◌, ◌≤◌};
ghost use Rattle.replay.specs.Kinds as kinds;
ghost use Rattle.replay.specs.Rows.{Fits};

#[derive(Clone, Copy, Debug, PartialEq, Eq)]
pub enum Kind {
    Root,
    Hypot,
    Point,
    Sphere,
    Box,
    Convex,
    Cylinder,
    Walk,
    Section,
    Polygon,
    VerdictSphere,
    VerdictBox,
    VerdictConvex,
    VerdictCylinder,
}

// In this order: 0 to 2 lists, 0 to 16 numbers, and the size of a builder's space or none.
#[derive(Clone, Copy)]
pub struct Row {
    pub lists: usize,
    pub numbers: usize,
    pub sized: bool,
}

fn holds(lists: usize, numbers: usize, sized: bool) -> Row
    requires { (lists ≤ 2) × (numbers ≤ 16) }
    ensures { Fits result }
{
    Row {
        lists,
        numbers,
        sized,
    }
}

// A verdict, by the letter behind its `v`.
fn verdict_of(letter: u8) -> Option<Kind>
    ensures { result ≡ kinds.verdict_of letter }
{
    match letter {
        b's' => Some(Kind::VerdictSphere),
        b'b' => Some(Kind::VerdictBox),
        b'c' => Some(Kind::VerdictConvex),
        b'y' => Some(Kind::VerdictCylinder),
        _ => None,
    }
}

impl Kind {
    // That of a line which begins with these letters.
    pub fn of(letter: u8, next: u8) -> Option<Kind>
        ensures { result ≡ kinds.kind_of letter next }
    {
        match letter {
            b'r' => Some(Kind::Root),
            b'h' => Some(Kind::Hypot),
            b'p' => Some(Kind::Point),
            b's' => Some(Kind::Sphere),
            b'b' => Some(Kind::Box),
            b'c' => Some(Kind::Convex),
            b'y' => Some(Kind::Cylinder),
            b'w' => Some(Kind::Walk),
            b'S' => Some(Kind::Section),
            b'P' => Some(Kind::Polygon),
            b'v' => verdict_of(next),
            _ => None,
        }
    }

    // How many letters it has.
    pub fn letters(self) -> usize
        ensures { result ≡ kinds.letters self }
    {
        match self {
            Kind::VerdictSphere | Kind::VerdictBox | Kind::VerdictConvex | Kind::VerdictCylinder =>
                2,
            _ => 1,
        }
    }

    pub fn row(self) -> Row
        ensures { Fits result }
    {
        match self {
            Kind::Root => holds(0, 1, false),
            Kind::Hypot => holds(0, 2, false),
            Kind::Point => holds(1, 3, false),
            Kind::Sphere => holds(1, 4, false),
            Kind::Box => holds(1, 4, false),
            Kind::Convex => holds(2, 0, false),
            Kind::Cylinder => holds(1, 7, false),
            Kind::Walk => holds(1, 10, false),
            Kind::Section => holds(1, 0, true),
            Kind::Polygon => holds(1, 0, true),
            Kind::VerdictSphere => holds(1, 5, false),
            Kind::VerdictBox => holds(1, 5, false),
            Kind::VerdictConvex => holds(2, 1, false),
            Kind::VerdictCylinder => holds(1, 8, false),
        }
    }
}
