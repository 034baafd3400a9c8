// Which script is generated.
ghost use Rattle.std.specs.Prelude.{◌≤◌};

/// The generated script of this seed: so many lines, and the four before them.
#[derive(Clone, Copy)]
pub struct Generated {
    pub seed: u64,
    pub count: u64,
    pub ghost few: { count ≤ 1000000 },
}
