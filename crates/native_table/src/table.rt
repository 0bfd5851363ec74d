ghost use Rattle.std.specs.Prelude.{◌≡◌, [], ◌∷◌, ◌++◌, true, false, if◌then◌else◌, All, IfOk, IfErr, IfSome, OnOk, OnErr, Some, length, map, option_copied, option_map};
ghost use Rattle.indexmap.specs.IndexMap.{keys, values};
ghost use Rattle.hack_values.specs.Natives.{native_value};
ghost use Rattle.native_table.specs.Answers.{answered, no_objects, IsOfType};

use crate::{Native, NativeAnswer};
use hack_values::{Cell, NoMemory};
use indexmap::IndexMap;
use std::alloc::Global;

/// Why a native wasn't added. It comes back.
#[derive(Drop)]
pub enum AddFault {
    /// The table has a native of this name.
    NameTaken(Native),
    NoMemory(Native),
}

/// Natives of different names, each found by the bytes of its name. A clause sees them as a list, in the order in which
/// they were added (`natives_of`), or as the list of their names, numbers of arguments and types of answers (`rows_of`).
/// It keeps the allocator that it was made with.
#[derive(Drop)]
pub struct NativeTable {
    natives: IndexMap<Vec<u8>, Native>,
    ghost keyed: { map (λ k. k.items) (keys natives) ≡ map (λ n. n.name) (values natives) },
}

impl NativeTable {
    ghost use Rattle.native_table.specs.Rows.{NativeRow, IsTyped, has_native, named, native_named};
    ghost use Rattle.native_table.specs.Tables.{row_of, rows_of, natives_of};

    /// The table without natives.
    pub fn new(alloc: Global) -> NativeTable
        ensures { natives_of result ≡ [] }
    {
        NativeTable {
            natives: IndexMap::new(alloc),
        }
    }

    /// Puts a native of a new name at the end.
    pub fn add(&mut self, native: Native) -> Result<(), AddFault>
        ensures new_name { OnOk result (has_native (rows_of self.old) native.name ≡ false) }
        ensures added { OnOk result (natives_of self.new ≡ natives_of self.old ++ native ∷ []) }
        ensures fault { IfErr result (λ fault. fault ≡ if has_native (rows_of self.old) native.name then AddFault.NameTaken native else AddFault.NoMemory native) }
        ensures err { OnErr result (natives_of self.new ≡ natives_of self.old) }
    {
        if self.find(native.name.bytes()).is_some() {
            return Err(AddFault::NameTaken(native));
        }
        let alloc = *self.natives.allocator();
        let Ok(key) = Vec::from_slice(alloc, native.name.bytes()) else {
            return Err(AddFault::NoMemory(native));
        };
        match self.natives.insert(key, native) {
            Ok(_) => Ok(()),
            Err(refusal) => Err(AddFault::NoMemory(refusal.value.1)),
        }
    }

    /// The native of a name.
    pub fn find(&self, name: &[u8]) -> Option<&Native>
        ensures native { option_copied result ≡ named (λ native. native.name) (natives_of self.now) name.now }
        ensures row { option_map row_of (option_copied result) ≡ native_named (rows_of self.now) name.now }
    {
        self.natives.get(name)
    }

    /// Calls the native of a name.
    pub fn call(&self, alloc: Global, name: &[u8], args: &[Cell]) -> Result<NativeAnswer, NoMemory>
        requires there { has_native (rows_of self.now) name.now ≡ true }
        requires count { IfSome (native_named (rows_of self.now) name.now) (λ row. length args.now ≡ row.arity) }
        requires objects { no_objects args.now ≡ true }
        ensures value { IfOk result (λ answer. answer ≡ answered (native_value name.now args.now)) }
        ensures in_type { IfSome (native_named (rows_of self.now) name.now) (λ row. IfSome (native_value name.now args.now) (λ value. IsOfType value row.answers)) }
    {
        match self.find(name) {
            Some(native) => (native.call)(alloc, args),
            None => unreachable!(),
        }
    }

    /// What each native keeps of its type: that it has no Uninit and names no class, and that all that the native of its
    /// name gives is of it.
    pub fn is_typed(&self)
        ensures { All IsTyped (rows_of self.now) }
    {
        let _ = &self.natives;
    }
}
