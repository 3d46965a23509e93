ghost use Rattle.std.specs.Prelude.{◌≡◌, IfOk};

use crate::items::Items;
use crate::key::Key;
use crate::memory::NoMemory;
use crate::text::Text;
use std::alloc::Global;

/// A copy that may take memory.
pub trait TryClone: Sized + Drop {
    /// The same value, in new memory.
    fn try_clone(&self) -> Result<Self, NoMemory>
        ensures { IfOk result (λ copy. copy ≡ self.now) };

    /// The same values, in new memory. Plain numbers are copied at once.
    fn try_clone_all(items: &[Self], alloc: Global) -> Result<Vec<Self>, NoMemory>
        ensures { IfOk result (λ copies. copies.items ≡ items.now) }
    {
        let mut copies = Vec::new(alloc);
        for item in items {
            copies.push(item.try_clone()?)?;
        }
        Ok(copies)
    }
}

impl TryClone for u8 {
    fn try_clone(&self) -> Result<u8, NoMemory> {
        Ok(*self)
    }

    fn try_clone_all(items: &[u8], alloc: Global) -> Result<Vec<u8>, NoMemory> {
        Ok(items.to_vec(alloc)?)
    }
}

impl TryClone for u64 {
    fn try_clone(&self) -> Result<u64, NoMemory> {
        Ok(*self)
    }

    fn try_clone_all(items: &[u64], alloc: Global) -> Result<Vec<u64>, NoMemory> {
        Ok(items.to_vec(alloc)?)
    }
}

impl TryClone for bool {
    fn try_clone(&self) -> Result<bool, NoMemory> {
        Ok(*self)
    }

    fn try_clone_all(items: &[bool], alloc: Global) -> Result<Vec<bool>, NoMemory> {
        Ok(items.to_vec(alloc)?)
    }
}

impl<T: TryClone> TryClone for Option<T> {
    fn try_clone(&self) -> Result<Option<T>, NoMemory> {
        match self {
            None => Ok(None),
            Some(value) => Ok(Some(value.try_clone()?)),
        }
    }
}

impl<T: TryClone> TryClone for Items<T> {
    fn try_clone(&self) -> Result<Items<T>, NoMemory> {
        Items::try_clone(self)
    }
}

impl TryClone for Key {
    fn try_clone(&self) -> Result<Key, NoMemory> {
        Key::try_clone(self)
    }
}

impl TryClone for Text {
    fn try_clone(&self) -> Result<Text, NoMemory> {
        Text::try_clone(self)
    }
}
