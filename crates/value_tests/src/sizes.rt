//! How many bytes values take. A list of a million cells takes a million times the size of one, so a size that grows is to
//! be seen here first.

use hack_values::{Cell, DictVal, Key, KeysetVal, Slot, Text, VecVal};

const _: () = prove!(size_of::<Text>() == 8);

const _: () = prove!(size_of::<Key>() == 16);

const _: () = prove!(size_of::<KeysetVal>() == 24);

const _: () = prove!(size_of::<VecVal>() == 64);

const _: () = prove!(size_of::<DictVal>() == 80);

const _: () = prove!(size_of::<Cell>() == 88);

const _: () = prove!(size_of::<Slot>() == 96);
