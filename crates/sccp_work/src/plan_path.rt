//! The file of a plan, and the limits under which it is read.
use plan_model::Limits;
use std::marker::Model;

/// The name of a plan's file, and the limits under which the plan is read.
#[derive(Drop)]
pub struct PlanPath<'a> {
    name: &'a str,
    limits: Limits,
}

impl<'a> Model for PlanPath<'a> {
    ghost use Rattle.sccp_work.specs.PlanFile.{PlanFile, plan_file};

    ghost Value = { PlanFile };

    ghost view = { λ p. plan_file p.name.now p.limits };
}

impl<'a> PlanPath<'a> {
    ghost use Rattle.std.specs.Prelude.{◌≡◌};
    ghost use Rattle.sccp_work.specs.PlanFile.{plan_file, plain};

    /// The file of this name, read under these limits.
    pub fn new(name: &'a str, limits: Limits) -> PlanPath<'a>
        ensures { result ≡ plan_file name.now limits }
    {
        PlanPath { name, limits }
    }

    /// A file of this name that is no plan, for which the standard limit on octets holds.
    pub fn plain(name: &'a str) -> PlanPath<'a>
        ensures { result ≡ plain name.now }
    {
        PlanPath::new(name, Limits::standard())
    }

    /// The name of the file.
    pub fn name(&self) -> &'a str
        ensures { result.now ≡ self.now.name }
    {
        self.name
    }

    /// The limits under which it is read.
    pub fn limits(&self) -> Limits
        ensures { result ≡ self.now.limits }
    {
        self.limits
    }
}
