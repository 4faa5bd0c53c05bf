//! A value in memory of its own.
ghost use Rattle.std.specs.Prelude.{◌≡◌, IfOk};

use crate::out_of_memory::OutOfMemory;
use std::alloc::Global;
use std::marker::Model;

/// A value in memory of its own, so that its holder stays small when it is moved. Contracts see it as the value.
#[derive(Drop)]
pub struct Boxed<T> {
    inner: Box<T>,
}

impl<T> Model for Boxed<T> {
    ghost Value = { T };

    ghost view = { λ b. b.inner.value };
}

impl<T> Boxed<T> {
    /// Puts a value into memory of its own. If memory runs out, the value is given up.
    pub fn new(alloc: Global, value: T) -> Result<Self, OutOfMemory>
    where
        T: Drop,
        ensures { IfOk result (λ b. b ≡ value) }
    {
        Ok(Boxed {
            inner: Box::new(alloc, value)?,
        })
    }

    /// The value, to be read.
    pub fn get(&self) -> &T
        ensures { result.now ≡ self.now }
    {
        &self.inner
    }

    /// Takes the value out of its memory.
    pub fn into_inner(self) -> T
        ensures { result ≡ self }
    {
        Box::into_inner(self.inner)
    }
}
