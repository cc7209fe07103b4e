//! Cubes that came to a node together, with the stretch that all of them go on with.

ghost use Rattle.std.specs.Prelude.{◌≡◌, ◌≤◌, length, take, drop, IsTrue, ◌↔◌, []};
ghost use Rattle.std.specs.List.{AllByRecursion};
ghost use Rattle.std.specs.Option.{option_to_list};
ghost use Rattle.split_tree.specs.SplitTree.{going_with, SplitsOn};
ghost use Rattle.split_tree.specs.Inner.Grow.{cubes_ahead, group_ahead, led_by, BeginsWith};

use cnf_text::literal::Lit;

/// A cube on its way down the tree.
#[derive(Clone, Copy)]
pub struct Ahead<'a> {
    /// The cube's number, from 1.
    pub number: u32,
    /// Its literals from here on.
    pub literals: &'a [Lit],
}

/// Cubes that came to a node together.
#[derive(Drop)]
pub struct Group<'a> {
    /// What all of them go on with.
    pub shared: &'a [Lit],
    /// What lies ahead of each behind that.
    pub cubes: Vec<Ahead<'a>>,
}

impl<'a> Ahead<'a> {
    /// Whether the cube hasn't ended, and its next literal is of this variable.
    pub fn splits_on(&self, variable: u32) -> bool
        ensures { IsTrue result ↔ SplitsOn variable self.now.literals.now }
    {
        match self.literals.first() {
            Some(next) => next.variable() == variable,
            None => false,
        }
    }

    /// The cube behind its next literal, where that has this sign.
    pub fn going(&self, sign: bool) -> Option<Ahead<'a>>
        ensures { cubes_ahead (option_to_list result)
            ≡ going_with sign self.now.number self.now.literals.now [] }
    {
        match self.literals {
            [literal, rest @ ..] if literal.positive() == sign => Some(Ahead {
                number: self.number,
                literals: rest,
            }),
            _ => None,
        }
    }

    /// Whether the cube goes on with this stretch.
    fn begins_with(&self, stretch: &[Lit]) -> bool
        ensures { IsTrue result ↔ BeginsWith stretch.now self.now.literals.now }
    {
        self.literals.starts_with(stretch)
    }

    /// The cube behind so many literals.
    fn behind(&self, count: usize) -> Ahead<'a>
        requires { count ≤ length self.now.literals.now }
        ensures number { result.number ≡ self.now.number }
        ensures literals { result.literals.now ≡ drop count self.now.literals.now }
    {
        Ahead {
            number: self.number,
            literals: &self.literals[count..],
        }
    }
}

/// Whether each of these cubes goes on with this stretch.
fn all_begin_with(stretch: &[Lit], cubes: &[Ahead]) -> bool
    ensures { IsTrue result ↔ AllByRecursion (λ c. BeginsWith stretch.now c.literals)
        (cubes_ahead cubes.now) }
{
    for cube in cubes {
        if !cube.begins_with(stretch) {
            return false;
        }
    }
    true
}

/// How many of these literals all these cubes go on with: at least about half of those that they
/// do. It tries one, and then about twice as many each time, until a cube goes on otherwise. So a
/// try that fails looks at no more than twice what was found, and one literal of each cube.
fn shared_len(literals: &[Lit], cubes: &[Ahead]) -> usize
    ensures within { result ≤ length literals.now }
    ensures each { AllByRecursion (λ c. BeginsWith (take result literals.now) c.literals)
        (cubes_ahead cubes.now) }
{
    let mut shared = 0;
    while shared < literals.len() {
        let tried = shared + (literals.len() - shared).min(shared + 1);
        if !all_begin_with(&literals[..tried], cubes) {
            return shared;
        }
        shared = tried;
    }
    shared
}

/// A stretch that all these cubes go on with.
fn shared_by<'a>(cubes: &[Ahead<'a>]) -> &'a [Lit]
    ensures { AllByRecursion (λ c. BeginsWith result.now c.literals) (cubes_ahead cubes.now) }
{
    match cubes {
        [first, others @ ..] => {
            let literals = first.literals;
            &literals[..shared_len(literals, others)]
        }
        [] => &[],
    }
}

/// Moves each of these cubes behind the stretch that it goes on with.
fn move_behind(stretch: &[Lit], cubes: &mut [Ahead])
    requires { AllByRecursion (λ c. BeginsWith stretch.now c.literals) (cubes_ahead cubes.old) }
    ensures { led_by stretch.now cubes.new ≡ cubes_ahead cubes.old }
{
    for cube in cubes.iter_mut() {
        *cube = cube.behind(stretch.len());
    }
}

/// These cubes as a group, with a stretch that all of them share.
pub fn gathered<'a>(mut cubes: Vec<Ahead<'a>>) -> Group<'a>
    ensures { group_ahead result ≡ cubes_ahead cubes.entry.items }
{
    let shared = shared_by(&cubes);
    if shared.is_empty() {
        return Group { shared, cubes };
    }
    move_behind(shared, &mut cubes);
    Group { shared, cubes }
}
