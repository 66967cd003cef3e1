// Sets of vertices, as tables of 256 bools, where a formula without parts is true, and steps along edges (`pass`).

#![tactic(auto)]

ghost use Rattle.std.specs.Prelude.{◌≡◌, true, false, not, ◌||◌, ℕ, ◌<◌, length, eqb};
ghost use Rattle.vertices.specs.Steps.{is_in, Among, HasMember};
ghost use Rattle.vertices.specs.Places.{placed};

pub mod pass;

// A set of vertices: for each octet whether it is in the set.
pub type Vertices = [bool; 256];

// Where something is true: at no vertex, at one, at all of them.
#[derive(Clone, Copy)]
pub enum Place {
    Nowhere,
    At(u8),
    Everywhere,
}

impl Place {
    // Vertex y is there.
    pub fn has(self, y: u8) -> bool
        ensures { result ≡ placed self y }
    {
        match self {
            Place::Nowhere => false,
            Place::At(x) => y == x,
            Place::Everywhere => true,
        }
    }

    // Of the asked vertices those that are there.
    pub fn among(self, asked: &Vertices) -> Vertices
        ensures { Among asked.now (placed self) result }
    {
        match self {
            Place::Nowhere => none(),
            Place::At(x) => only(asked, x),
            Place::Everywhere => *asked,
        }
    }
}

// No vertex.
pub fn none() -> Vertices
    ensures whole { length result ≡ 256 }
    ensures empty { (v : ℕ) → is_in result v ≡ false }
{
    [false; 256]
}

// Every vertex.
pub fn all() -> Vertices
    ensures { (v : ℕ) → v < 256 → is_in result v ≡ true }
{
    [true; 256]
}

// Of the asked vertices the vertex x.
pub fn only(asked: &Vertices, x: u8) -> Vertices
    ensures { Among asked.now (λ v. eqb v x) result }
{
    let mut r = none();
    let i = usize::from(x);
    r[i] = asked[i];
    r
}

// The set has a vertex.
pub fn has_any(s: &Vertices) -> bool
    ensures { HasMember s.now result }
{
    s.contains(&true)
}

// All asked vertices, or none.
pub fn asked_if(asked: &Vertices, b: bool) -> Vertices
    ensures { Among asked.now (λ v. b) result }
{
    if b { *asked } else { none() }
}

// Of the asked vertices those not in t.
pub fn minus(asked: &Vertices, t: &Vertices) -> Vertices
    ensures { Among asked.now (λ v. not (is_in t.now v)) result }
{
    let mut r = none();
    for v in 0..256 {
        r[v] = asked[v] & !t[v];
    }
    r
}

// The vertices of a and of b.
pub fn union(a: &Vertices, b: &Vertices) -> Vertices
    ensures { (v : ℕ) → is_in result v ≡ (is_in a.now v || is_in b.now v) }
{
    let mut r = none();
    for v in 0..256 {
        r[v] = a[v] | b[v];
    }
    r
}
