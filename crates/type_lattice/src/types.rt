ghost use Rattle.std.specs.Prelude.{◌≡◌};
ghost use Rattle.type_lattice.specs.Types.{short_bytes};

/// Which ints a type has.
#[derive(Clone, Copy, Debug, PartialEq, Eq)]
pub enum IntPart {
    No,
    One(i64),
    Any,
}

/// A string of at most 32 bytes. The bytes past its length are 0.
#[derive(Clone, Copy, Debug, PartialEq, Eq)]
pub struct Short {
    pub len: u8,
    pub bytes: [u8; 32],
}

impl Short {
    /// The bytes of the string.
    pub fn as_bytes(&self) -> &[u8]
        ensures { result.now ≡ short_bytes self.now }
    {
        let len = self.len as usize;
        if len < 32 {
            &self.bytes[..len]
        } else {
            &self.bytes
        }
    }
}

/// Which strings a type has.
#[derive(Clone, Copy, Debug, PartialEq, Eq)]
pub enum StrPart {
    No,
    One(Short),
    Any,
}

/// Which objects a type has: none, those of one class, those of a class and the classes below it, or all.
#[derive(Clone, Copy, Debug, PartialEq, Eq)]
pub enum ObjPart {
    No,
    Exact(u32),
    Sub(u32),
    Any,
}

/// The type of what stands in a container. Its own containers are whole: they hold anything.
#[derive(Clone, Copy, Debug, PartialEq, Eq)]
pub struct Leaf {
    pub null: bool,
    pub no: bool,
    pub yes: bool,
    pub int: IntPart,
    pub str: StrPart,
    pub obj: ObjPart,
    pub vec: bool,
    pub dict: bool,
    pub keyset: bool,
}

/// A type: the slots that have one of its parts. `no` and `yes` are false and true.
#[derive(Clone, Copy, Debug, PartialEq, Eq)]
pub struct HType {
    pub uninit: bool,
    pub null: bool,
    pub no: bool,
    pub yes: bool,
    pub int: IntPart,
    pub str: StrPart,
    pub obj: ObjPart,
    pub vec: Option<Leaf>,
    pub dict: Option<(Leaf, Leaf)>,
    pub keyset: Option<Leaf>,
}

impl Leaf {
    /// What holds every cell.
    pub const CELL: Leaf = Leaf {
        null: true,
        no: true,
        yes: true,
        int: IntPart::Any,
        str: StrPart::Any,
        obj: ObjPart::Any,
        vec: true,
        dict: true,
        keyset: true,
    };

    /// What holds every key.
    pub const KEY: Leaf = Leaf {
        null: false,
        no: false,
        yes: false,
        int: IntPart::Any,
        str: StrPart::Any,
        obj: ObjPart::No,
        vec: false,
        dict: false,
        keyset: false,
    };

    /// What holds nothing.
    pub const NEVER: Leaf = Leaf {
        null: false,
        no: false,
        yes: false,
        int: IntPart::No,
        str: StrPart::No,
        obj: ObjPart::No,
        vec: false,
        dict: false,
        keyset: false,
    };
}

impl HType {
    /// The type without members.
    pub const NEVER: HType = HType {
        uninit: false,
        null: false,
        no: false,
        yes: false,
        int: IntPart::No,
        str: StrPart::No,
        obj: ObjPart::No,
        vec: None,
        dict: None,
        keyset: None,
    };

    /// The type of what isn't there yet.
    pub const UNINIT: HType = HType {
        uninit: true,
        ..HType::NEVER
    };

    /// The type of all cells.
    pub const CELL: HType = HType {
        uninit: false,
        null: true,
        no: true,
        yes: true,
        int: IntPart::Any,
        str: StrPart::Any,
        obj: ObjPart::Any,
        vec: Some(Leaf::CELL),
        dict: Some((Leaf::KEY, Leaf::CELL)),
        keyset: Some(Leaf::KEY),
    };
}
