// The structs that travel between the crates. Plain values: no function, and nothing that is checked here.
#![tactic(auto)]

// The hull as its frame gives it: its kind (1 a cargo ship, 6 a passenger ship), Ls and B in centimetres, the deepest and the
// light draught in millimetres, the persons of a passenger ship for whom there are lifeboats, those in excess of them and the
// rule that it is under (0 the earlier one, 1 that of 2020; all three are 0 of a cargo ship), the zone count m, and the places of
// the zones' ends along the ship: 0, the m - 1 inner bulkheads, Ls at place m, 0 after that.
#[derive(Clone, Copy)]
pub struct Hull {
    pub kind: u64,
    pub length: u64,
    pub breadth: u64,
    pub deepest: u64,
    pub light: u64,
    pub lifeboats: u64,
    pub excess: u64,
    pub rule: u64,
    pub zones: usize,
    pub places: [u64; 21],
}

// A row's result at one draught, at the final stage of flooding. Kinds 2, 5 and 7: what the customer's program found, the righting lever in millimetres, its
// range and the heel in hundredths of a degree, the height of the critical opening above the final waterline in millimetres
// (below 0 it is immersed), and given is 0. Kind 3: a given survival in ten-thousandths, the others 0.
#[derive(Clone, Copy, Default)]
pub struct Finding {
    pub lever: u64,
    pub range: u64,
    pub heel: u64,
    pub opening: i64,
    pub given: u64,
}

// What a passenger ship's row, of kind 7, tells at one draught besides: the displacement in tonnes, the heeling moment in
// tonne-metres, the righting lever, its range and the heel at an intermediate stage of flooding, and 1 where the case
// involves a ro-ro space, else 0.
#[derive(Clone, Copy)]
pub struct Flooding {
    pub displacement: u64,
    pub moment: u64,
    pub lever: u64,
    pub range: u64,
    pub heel: u64,
    pub roro: u64,
}

// What a row says before its results: its kind (2, 3 or 5, or a passenger ship's 7), the group's first zone a and zone count n, the penetration b
// in centimetres and the height H in millimetres.
#[derive(Clone, Copy, Default)]
pub struct RowHead {
    pub kind: u64,
    pub first: u64,
    pub count: u64,
    pub depth: u64,
    pub height: u64,
}

// A figure in billionths: the exact one is not below the lower end and not above the upper.
#[derive(Clone, Copy, Default)]
pub struct Ends {
    pub lower: u64,
    pub upper: u64,
}

// A fraction from 0 to 1, as a numerator and a denominator.
#[derive(Clone, Copy)]
pub struct Ratio {
    pub num: u64,
    pub den: u64,
}

// A survival in ten-thousandths, rounded down and up: the exact one is not below the bottom and not above the top.
#[derive(Clone, Copy, Default)]
pub struct Rounded {
    pub bottom: u64,
    pub top: u64,
}

// What holds a survival down, yes or no: the lever is below its cap, the range below its cap, the heel above that from which survival
// falls (of a cargo ship 120, 1,600 and 2,500), the critical opening is immersed.
#[derive(Clone, Copy, Default)]
pub struct Marks {
    pub lever: bool,
    pub range: bool,
    pub heel: bool,
    pub opening: bool,
}

// A survival factor in ten-thousandths: the exact one is not below the bottom and not above the top. And its marks: a given one has none.
#[derive(Clone, Copy, Default)]
pub struct Survival {
    pub bottom: u64,
    pub top: u64,
    pub marks: Marks,
}

// What the service answers, the partial indices in the order deepest, partial, light. At a refusal its number and line, and zeros; else number and line are 0.
#[derive(Clone, Copy, Default)]
pub struct Answer {
    pub number: u64,
    pub line: u64,
    pub verdict: u64,
    pub rows: u64,
    pub attained: Ends,
    pub partials: [Ends; 3],
}
