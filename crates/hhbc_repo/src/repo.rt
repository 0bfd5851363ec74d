ghost use Rattle.std.specs.Prelude.{◌≡◌, ◌<◌, ◌≤◌, ◌^◌, ◌-◌, ℕ, IfOk, IfSome, MatchOption, Some, true, length, slice_get};
ghost use Rattle.std.specs.List.{list_all};
ghost use Rattle.type_lattice.specs.InRange.{where_there, is_proper};
ghost use Rattle.hhbc_repo.specs.Bodies.{bodies, body_at, class_names, numbers, own_from, property_counts, tree_of};
ghost use Rattle.hhbc_repo.specs.ChangedClaims.{claimed};
ghost use Rattle.hhbc_repo.specs.Claims.{body_claims_within, changed_body, with_asserts, with_holds, with_returns};
ghost use Rattle.hhbc_repo.specs.Lengths.{body_fewer};
ghost use Rattle.hhbc_repo.specs.LinkFaults.{place_in};
ghost use Rattle.hhbc_repo.specs.LookUps.{IsMethodOf, Sound, all_properties, function_names, method_of, owners, property_of, property_owners, total};
ghost use Rattle.hhbc_repo.specs.Places.{methods_named, place_of, properties_named};
ghost use Rattle.hhbc_repo.specs.Within.{assert_within, bounds_of};
ghost use Rattle.hhbc_repo.specs.Spelled.{HasSpelling};

use crate::bearers::{Bearers, bearers_among};
use crate::body::{Assert, Body};
use crate::claims::{Claim, claim_body, claim_method, hold_property};
use crate::class_list::{list_of_classes, tree_of_classes};
use crate::copies::copied_all;
use crate::homes::{Home, body_at, homes};
use crate::look_ups::find_member;
use crate::members::{Members, methods_of, properties_of};
use crate::name_table::{NameTable, table_of_bodies, table_of_texts};
use crate::property_places::{find_place, owners};
use hack_values::{Cell, NoMemory, Seq, Text};
use std::alloc::Global;
use std::marker::Model;
use type_lattice::{ClassTree, HType};

/// A class that the repository declares. Classes are numbered from 6, behind those that are built in.
#[derive(Drop)]
pub struct Class {
    pub name: Text,
    pub parent: Option<u32>,
    pub consts: Seq<Const>,
    pub props: Seq<Property>,
    pub methods: Seq<Body>,
}

/// A constant of a class.
#[derive(Drop)]
pub struct Const {
    pub name: Text,
    pub value: Cell,
}

/// A property of a class, with the value that it has in a new object.
#[derive(Drop)]
pub struct Property {
    pub name: Text,
    pub initial: Cell,
    /// The type that the class states of what it holds.
    pub stated: Option<HType>,
}

/// The properties that a class declares itself: so many from the first on.
#[derive(Clone, Copy)]
pub struct OwnProperties {
    pub first: u32,
    pub count: u32,
}

/// A repository: functions and classes, each in the order in which they are declared, and tables in
/// which they are looked up by name and by number.
#[derive(Drop)]
pub struct Repo {
    functions: Seq<Body>,
    classes: Seq<Class>,
    function_table: NameTable,
    class_table: NameTable,
    class_list: Seq<Text>,
    methods: Members,
    properties: Members,
    tree: ClassTree,
    homes: Seq<Home>,
    owners: Seq<u32>,
    named_methods: Bearers,
    named_properties: Bearers,
}

impl Model for Repo {
    ghost use Rattle.hhbc_repo.specs.Linked.{Linked};
    ghost use Rattle.hhbc_repo.specs.Kept.{Kept};

    ghost Value = { Linked };

    ghost use Rattle.std.specs.Coded.{codes};
    ghost use Rattle.hack_values.specs.Code.{coded_val, coded_key};

    ghost coded = { Prim.hlevel (codes, coded_val, coded_key) };

    ghost view = { λ r. record { functions = r.functions; classes = r.classes } };

    ghost invariant = { λ r. Kept (record { functions = r.functions; classes = r.classes }) r.function_table r.class_table r.class_list r.methods r.properties r.tree r.homes r.owners r.named_methods r.named_properties };
}

impl Repo {
    /// A repository of these functions and classes.
    pub fn new(alloc: Global, functions: Seq<Body>, classes: Seq<Class>) -> Result<Repo, NoMemory>
        requires sound { Sound (record { functions = functions; classes = classes }) }
        requires spelled { HasSpelling (record { functions = functions; classes = classes }) }
        ensures { IfOk result (λ repo. repo ≡ record { functions = functions; classes = classes }) }
    {
        let function_table = table_of_bodies(alloc, functions.as_slice())?;
        let class_list = list_of_classes(alloc, classes.as_slice())?;
        let class_table = table_of_texts(alloc, class_list.as_slice())?;
        let methods = methods_of(alloc, functions.as_slice().len() as u32, classes.as_slice())?;
        let properties = properties_of(alloc, classes.as_slice())?;
        let tree = tree_of_classes(alloc, classes.as_slice())?;
        let homes = homes(alloc, functions.as_slice(), classes.as_slice())?;
        let owners = owners(alloc, &properties)?;
        let named_methods = bearers_among(alloc, &methods)?;
        let named_properties = bearers_among(alloc, &properties)?;
        Ok(Repo {
            functions,
            classes,
            function_table,
            class_table,
            class_list,
            methods,
            properties,
            tree,
            homes,
            owners,
            named_methods,
            named_properties,
        })
    }

    /// Its canonical text spells it: its canonical parts are parts of a text, and link back to it.
    pub fn has_spelling(&self)
        ensures { HasSpelling self.now }
    {
        let _ = self.functions.as_slice();
    }

    /// No body has more than 32 iterators; names differ, classes descend from classes and none from itself, and whatever
    /// is numbered or counted fits 32 bits.
    pub fn is_sound(&self)
        ensures iterators { (n : ℕ) (b : Body) → body_at self.now n ≡ Some b → b.iters ≤ 32 }
        ensures sound { Sound self.now }
    {
        let _ = self.functions.as_slice();
    }

    /// The functions.
    pub fn functions(&self) -> &[Body]
        ensures { result.now ≡ self.now.functions }
    {
        self.functions.as_slice()
    }

    /// The declared classes.
    pub fn classes(&self) -> &[Class]
        ensures { result.now ≡ self.now.classes }
    {
        self.classes.as_slice()
    }

    /// The names of all classes by number, those of the built-in ones first.
    pub fn class_names(&self) -> &[Text]
        ensures { result.now ≡ class_names self.now }
    {
        self.class_list.as_slice()
    }

    /// The tree of all classes.
    pub fn tree(&self) -> &ClassTree
        ensures { result.now ≡ tree_of self.now }
    {
        &self.tree
    }

    /// How many functions and methods there are.
    pub fn bodies(&self) -> u32
        ensures { result ≡ length (bodies self.now) }
    {
        self.homes.as_slice().len() as u32
    }

    /// A function or a method. Functions are numbered first, and then the methods of each class.
    pub fn body(&self, body: u32) -> &Body
        requires { body < length (bodies self.now) }
        ensures { slice_get (bodies self.now) body ≡ Some result.now }
    {
        let home = self.homes.as_slice()[body as usize];
        body_at(self.functions.as_slice(), self.classes.as_slice(), home)
    }

    /// The class of a method; a function has none.
    pub fn class_of(&self, body: u32) -> Option<u32>
        requires { body < length (bodies self.now) }
        ensures { slice_get (owners self.now) body ≡ Some result }
    {
        self.homes.as_slice()[body as usize].class
    }

    /// The first function of that name.
    pub fn find_function(&self, name: &[u8]) -> Option<u32>
        ensures { result ≡ place_in (function_names self.now.functions) name.now }
    {
        let place = self.function_table.find(name)?;
        Some(place as u32)
    }

    /// The first class of that name.
    pub fn find_class(&self, name: &[u8]) -> Option<u32>
        ensures { result ≡ place_in (class_names self.now) name.now }
    {
        let place = self.class_table.find(name)?;
        Some(place as u32)
    }

    /// The method of that name which the class has, its own before those of its ancestors, the nearest first.
    /// Its number is that of a body.
    pub fn method_of(&self, class: u32, name: &[u8]) -> Option<u32>
        ensures value { result ≡ method_of self.now class name.now }
        ensures meaning { IfSome result (λ number. IsMethodOf self.now class name.now number) }
    {
        self.tree.is_forest();
        find_member(&self.methods, self.classes.as_slice(), class, name)
    }

    /// The property of that name which objects of the class have, its own before those of its ancestors,
    /// the nearest first. Properties are numbered by class, and those of a class in their order; 0 is the
    /// message of an Exception.
    pub fn property_of(&self, class: u32, name: &[u8]) -> Option<u32>
        ensures { result ≡ property_of self.now class name.now }
    {
        self.tree.is_forest();
        find_member(&self.properties, self.classes.as_slice(), class, name)
    }

    /// The declared class of a number; a built-in one has none.
    pub fn class(&self, class: u32) -> Option<&Class>
        requires { class < length (class_names self.now) }
        ensures { MatchOption result (class < 6) (λ declared. (6 ≤ class) × (slice_get self.now.classes (class - 6) ≡ Some declared.now)) }
    {
        let place = class.checked_sub(6)?;
        self.classes.as_slice().get(place as usize)
    }

    /// How many properties there are, with the message of Exception.
    pub fn properties(&self) -> u32
        ensures { result ≡ total (all_properties self.now) }
    {
        self.properties.count()
    }

    /// The properties that the class declares itself.
    pub fn own_properties(&self, class: u32) -> OwnProperties
        requires { class < length (class_names self.now) }
        ensures { own_from 0 (property_counts self.now) class ≡ numbers result.first result.count }
    {
        OwnProperties {
            first: self.properties.first_of(class),
            count: self.properties.count_of(class),
        }
    }

    /// The class that declares a property.
    pub fn owner_of(&self, property: u32) -> u32
        requires { property < total (all_properties self.now) }
        ensures { slice_get (property_owners self.now) property ≡ Some result }
    {
        self.owners.as_slice()[property as usize]
    }

    /// Where objects of the class keep their property of that name. They have the properties of their oldest ancestor
    /// first. The time that it takes is that of the chain of parents.
    pub fn place_of(&self, class: u32, name: &[u8]) -> Option<u32>
        ensures { result ≡ place_of self.now class name.now }
    {
        self.tree.is_forest();
        find_place(&self.properties, self.classes.as_slice(), class, name)
    }

    /// The methods of that name, whichever class declares them, by their numbers as bodies, ascending.
    pub fn methods_named(&self, name: &[u8]) -> &[u32]
        ensures { result.now ≡ methods_named self.now name.now }
    {
        self.named_methods.of(name)
    }

    /// The properties of that name, whichever class declares them, ascending.
    pub fn properties_named(&self, name: &[u8]) -> &[u32]
        ensures { result.now ≡ properties_named self.now name.now }
    {
        self.named_properties.of(name)
    }

    /// An equal repository, in memory of its own.
    pub fn copy(&self, alloc: Global) -> Result<Repo, NoMemory>
        ensures { IfOk result (λ copy. copy ≡ self.now) }
    {
        let functions = copied_all(alloc, self.functions.as_slice())?;
        let classes = copied_all(alloc, self.classes.as_slice())?;
        Repo::new(alloc, functions, classes)
    }

    /// Gives a body what it claims.
    fn set_claim(&mut self, body: u32, claim: Claim)
        requires within { body < length (bodies self.old) }
        requires fits { (b : Body) → body_at self.old body ≡ Some b
            → (body_claims_within (length (class_names self.old)) (claimed claim b) ≡ true) × (body_fewer (2 ^ 32) (claimed claim b) ≡ true) }
        ensures { self.new ≡ changed_body (claimed claim) body self.old }
    {
        let home = self.homes.as_slice()[body as usize];
        match home.class {
            None => claim_body(&mut self.functions, home.place, claim),
            Some(class) => claim_method(&mut self.classes, class - 6, home.place, claim),
        }
    }

    /// Replaces the type that a body states of what it returns.
    pub fn set_returns(&mut self, body: u32, stated: Option<HType>)
        requires within { body < length (bodies self.old) }
        requires proper { where_there (is_proper (length (class_names self.old))) stated ≡ true }
        ensures { self.new ≡ with_returns body stated self.old }
    {
        self.is_sound();
        self.has_spelling();
        self.set_claim(body, Claim::Returns(stated));
    }

    /// Replaces the assertions of a position.
    pub fn set_asserts(&mut self, body: u32, position: u32, asserts: Seq<Assert>)
        requires within { body < length (bodies self.old) }
        requires position { (b : Body) → body_at self.old body ≡ Some b → position < length b.positions }
        requires fits { (b : Body) → body_at self.old body ≡ Some b → list_all (assert_within (bounds_of (length (class_names self.old)) b)) asserts ≡ true }
        requires few { length asserts < 2 ^ 32 }
        ensures { self.new ≡ with_asserts body position asserts self.old }
    {
        self.is_sound();
        self.has_spelling();
        self.set_claim(body, Claim::Asserts(position, asserts));
    }

    /// Replaces the type that a property's class states of what it holds. The message of Exception, property 0, has none.
    pub fn set_holds(&mut self, property: u32, stated: Option<HType>)
        requires declared { 0 < property }
        requires within { property < total (all_properties self.old) }
        requires proper { where_there (is_proper (length (class_names self.old))) stated ≡ true }
        ensures { self.new ≡ with_holds property stated self.old }
    {
        let class = self.owners.as_slice()[property as usize];
        let place = property - self.properties.first_of(class);
        hold_property(&mut self.classes, class - 6, place, stated);
    }
}
