//! The number of workers of a replay or a load.
ghost use Rattle.std.specs.Prelude.{◌≡◌, ◌≤◌, option_map};
ghost use Rattle.sccp_replay.specs.Workers.{workers_in};

use sccp_base::decimal;

/// How many workers route the messages of a replay or a load.
#[derive(Drop)]
pub struct Workers {
    count: u32,
    ghost some: { 1 ≤ count },
    ghost few: { count ≤ 16 },
}

impl Workers {
    /// The number that one to ten decimal digits spell, if it is 1 to 16; otherwise none.
    pub fn parse(word: &[u8]) -> Option<Workers>
        ensures { option_map (λ (w : _). w.count) result ≡ workers_in word.now }
    {
        match decimal(word, 10) {
            Some(count) => {
                if 1 <= count && count <= 16 {
                    Some(Workers {
                        count: count as u32,
                    })
                } else {
                    None
                }
            }
            None => None,
        }
    }

    /// The number of workers, 1 to 16.
    pub fn count(&self) -> u32
        ensures value { result ≡ self.now.count }
        ensures some { 1 ≤ result }
        ensures few { result ≤ 16 }
    {
        self.count
    }
}
