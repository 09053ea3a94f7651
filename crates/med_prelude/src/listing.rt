//! One list type for every layer: a vector that contracts see as the list of its items.

ghost use Rattle.std.specs.Prelude.{◌≡◌, ◌==◌, [], ◌∷◌, ◌++◌, length, IfOk, IfErr, OnOk, OnErr};
ghost use Rattle.med_prelude.specs.Lists.{IsCopyOf};

use std::alloc::{AllocError, AllocFailed, Global};
use std::marker::Model;

/// A list of items. It is made of a vector, and gives it back, without taking memory.
#[derive(Debug, Drop)]
pub struct Listed<T> {
    vector: Vec<T>,
}

impl<T> Model for Listed<T> {
    ghost use Rattle.std.specs.Prelude.{List};

    ghost Value = { List T };

    ghost view = { λ l. l.vector.items };
}

impl<T> Listed<T> {
    /// The empty list, which holds no memory.
    pub fn new(alloc: Global) -> Self
        ensures { result ≡ [] }
    {
        Listed {
            vector: Vec::new(alloc),
        }
    }

    pub fn from_vec(vector: Vec<T>) -> Self
        ensures { result ≡ vector.items }
    {
        Listed { vector }
    }

    pub fn into_vec(self) -> Vec<T>
        ensures { result.items ≡ self }
    {
        self.vector
    }

    pub fn as_slice(&self) -> &[T]
        ensures { result.now ≡ self.now }
    {
        self.vector.as_slice()
    }

    pub fn len(&self) -> usize
        ensures { result ≡ length self.now }
    {
        self.as_slice().len()
    }

    pub fn is_empty(&self) -> bool
        ensures { result ≡ (length self.now == 0) }
    {
        self.len() == 0
    }

    /// Puts an item at the end; where memory runs out, the list is as it was and the item is handed back.
    pub fn push(&mut self, item: T) -> Result<(), AllocFailed<T>>
        ensures ok { OnOk result (self.new ≡ self.old ++ item ∷ []) }
        ensures err { OnErr result (self.new ≡ self.old) }
        ensures value_returned { IfErr result (λ failed. failed.value ≡ item) }
    {
        self.vector.push(item)
    }
}

impl<T: Clone> Clone for Listed<T> {
    ghost is_clone = { IsCopyOf T.is_clone };

    fn clone(&self) -> Result<Listed<T>, AllocError> {
        Ok(Listed {
            vector: self.vector.clone()?,
        })
    }
}
