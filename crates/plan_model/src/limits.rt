//! How much a plan may have, how long its file may be, and when a search for bad routes gives up.
ghost use Rattle.std.specs.Prelude.{◌≡◌};
ghost use Rattle.plan_model.specs.Limits.{standard, wide};

/// The most classes of a table of ranks, and of a search under the standard limits.
pub const MOST_CLASSES: usize = 262_144;

/// How much a plan may have, and how long its file may be. The types are part of the limits: the place of a node has one octet,
/// and that of a cover two.
#[derive(Clone, Copy)]
pub struct Limits {
    /// The most nodes.
    pub nodes: u8,
    /// The most rows of all nodes together.
    pub rows: u32,
    /// The most covers.
    pub covers: u16,
    /// The number of classes of titles at which a search may give up.
    pub classes: u32,
    /// The most octets of the file.
    pub octets: u32,
}

impl Limits {
    /// The limits of a plan for which nothing else is asked.
    pub fn standard() -> Limits
        ensures { result ≡ standard }
    {
        Limits {
            nodes: 64,
            rows: 4096,
            covers: 256,
            classes: MOST_CLASSES as u32,
            octets: 1_048_576,
        }
    }

    /// The limits of a plan of a large gateway.
    pub fn wide() -> Limits
        ensures { result ≡ wide }
    {
        Limits {
            nodes: 255,
            rows: 1_048_576,
            covers: 65_535,
            classes: 67_108_864,
            octets: 268_435_456,
        }
    }
}
