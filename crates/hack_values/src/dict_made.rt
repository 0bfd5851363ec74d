ghost use Rattle.std.specs.Prelude.{◌≡◌, [], IfOk, OnOk, Err};
ghost use Rattle.std.specs.Map.{keys_of, values_of};
ghost use Rattle.hack_values.specs.Keys.{entries_put};
ghost use Rattle.hack_values.specs.Limits.{IsTooLarge, IsTooDeep, IsWithin};
ghost use Rattle.hack_values.specs.Val.{from_pairs};
ghost use Rattle.hack_values.specs.Val.Val.{dict};
ghost use Rattle.hack_values.specs.View.{pairs_of, vals_of};

use crate::key_table::KeyTable;
use crate::known::Known;
use crate::value_fault::{MAX_DEPTH, MAX_WEIGHT};
use crate::{Cell, DictVal, Key, NoMemory, ValueFault};
use indexmap::set::IntoIter;
use std::alloc::Global;

impl DictVal {
    /// The dict into which these entries are put one after another. The whole is weighed: it may pass
    /// no limit where the entries that it is made of would.
    #[tactic(auto, using(crate::specs::Val::rows))]
    pub fn from_entries(alloc: Global, entries: Vec<(Key, Cell)>) -> Result<DictVal, ValueFault>
        ensures ok { IfOk result (λ made. made ≡ entries_put (pairs_of entries.items)) }
        ensures within { OnOk result (IsWithin (dict (from_pairs (entries_put (pairs_of entries.items))))) }
        ensures large { result ≡ Err ValueFault.TooLarge → IsTooLarge (dict (from_pairs (entries_put (pairs_of entries.items)))) }
        ensures deep { result ≡ Err ValueFault.TooDeep → IsTooDeep (dict (from_pairs (entries_put (pairs_of entries.items)))) }
    {
        let made = DictVal::put_all(alloc, entries)?;
        if made.weight() > MAX_WEIGHT {
            return Err(ValueFault::TooLarge);
        }
        if made.depth_to_limit().at_most > MAX_DEPTH {
            return Err(ValueFault::TooDeep);
        }
        Ok(made)
    }

    fn put_all(alloc: Global, entries: Vec<(Key, Cell)>) -> Result<DictVal, NoMemory>
        ensures { IfOk result (λ made. made ≡ entries_put (pairs_of entries.items)) }
    {
        let mut made = DictVal::with_room(alloc, entries.len())?;
        for (key, value) in entries {
            made.put(key, value)?;
        }
        Ok(made)
    }

    fn with_room(alloc: Global, count: usize) -> Result<DictVal, NoMemory>
        ensures { IfOk result (λ made. made ≡ []) }
    {
        Ok(DictVal {
            keys: KeyTable::with_room(alloc, count)?,
            vals: Vec::with_capacity(alloc, count)?,
            known: Some(Known::empty()),
        })
    }

    /// Its keys and its values, in order, so that they can be given away one by one.
    #[tactic(auto, using(crate::proofs::Rows::entries))]
    pub fn into_parts(self) -> (IntoIter<Key>, Vec<Cell>)
        ensures keys { result.0 ≡ keys_of self }
        ensures values { vals_of result.1.items ≡ values_of self }
    {
        (self.keys.into_keys(), self.vals)
    }
}
