//! The keys of a plan text, as reports of faults name them.
ghost use Rattle.std.specs.Prelude.{◌≡◌};

/// A key of a plan text that names the place of a fault.
#[derive(Clone, Copy)]
pub enum Key {
    Version,
    Node,
    Cover,
    Name,
    Point,
    Subsystems,
    Concerned,
    Row,
    Selector,
    Prefix,
    First,
    Backup,
    Targets,
    Ssn,
    Least,
    Most,
    Allowed,
    /// A key that is not one of the table's.
    Unknown,
}

impl Key {
    ghost use Rattle.plan_model.specs.Keys.{word_of};

    /// The word as it is printed.
    pub fn name(&self) -> &'static str
        ensures { result.now ≡ word_of self.now }
    {
        match self {
            Key::Version => "version",
            Key::Node => "node",
            Key::Cover => "cover",
            Key::Name => "name",
            Key::Point => "point",
            Key::Subsystems => "subsystems",
            Key::Concerned => "concerned",
            Key::Row => "row",
            Key::Selector => "selector",
            Key::Prefix => "prefix",
            Key::First => "first",
            Key::Backup => "backup",
            Key::Targets => "targets",
            Key::Ssn => "ssn",
            Key::Least => "least",
            Key::Most => "most",
            Key::Allowed => "allowed",
            Key::Unknown => "unknown key",
        }
    }
}
