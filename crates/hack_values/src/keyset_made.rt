ghost use Rattle.std.specs.Prelude.{◌≡◌, [], IfOk, OnOk, Err};
ghost use Rattle.hack_values.specs.Keys.{keys_put};
ghost use Rattle.hack_values.specs.Limits.{IsTooLarge, IsTooDeep, IsWithin};
ghost use Rattle.hack_values.specs.Val.Val.{keyset};

use crate::value_fault::MAX_WEIGHT;
use crate::{Key, KeysetVal, NoMemory, ValueFault};
use std::alloc::Global;

impl KeysetVal {
    /// The keyset of these keys, each where it comes first. The whole is weighed: a key that comes
    /// again adds nothing.
    pub fn from_keys(alloc: Global, keys: Vec<Key>) -> Result<KeysetVal, ValueFault>
        ensures ok { IfOk result (λ made. made ≡ keys_put keys.items) }
        ensures within { OnOk result (IsWithin (keyset (keys_put keys.items))) }
        ensures large { result ≡ Err ValueFault.TooLarge → IsTooLarge (keyset (keys_put keys.items)) }
        ensures deep { result ≡ Err ValueFault.TooDeep → IsTooDeep (keyset (keys_put keys.items)) }
    {
        let made = KeysetVal::put_all(alloc, keys)?;
        if made.weight() > MAX_WEIGHT {
            return Err(ValueFault::TooLarge);
        }
        Ok(made)
    }

    fn put_all(alloc: Global, keys: Vec<Key>) -> Result<KeysetVal, NoMemory>
        ensures { IfOk result (λ made. made ≡ keys_put keys.items) }
    {
        let mut made = KeysetVal::with_room(alloc, keys.len())?;
        for key in keys {
            made.put(key)?;
        }
        Ok(made)
    }
}
