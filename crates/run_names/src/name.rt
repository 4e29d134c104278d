//! Names, which contracts see as the bytes of their texts.

ghost use Rattle.std.specs.Prelude.{◌≡◌, ◌==◌, [], IfOk, OnErr, OnOk, Some};
ghost use Rattle.std.{specs.Ordering.as_partial_cmp, specs.Ordering.nat_cmp, specs.Cmp.partial_order_from_own_ties};
ghost use Rattle.std.{specs.Cmp.Rules.comparing, specs.Cmp.Lexicographic.pointwise, specs.Cmp.Lexicographic.slice_cmp};
ghost use Rattle.std.{proofs.Common.rules};
ghost use Rattle.run_names.specs.{Instances.instance_cmp, Names.module_path_of, Names.last_name_of};
ghost use Rattle.run_names.specs.{Names.optional_text};

use crate::memory::OutOfMemory;
use std::alloc::Global;
use std::cmp::Ordering;
use std::fmt;
use std::fmt::Formatter;
use std::marker::{Model, PhantomData};

/// A name of one kind, which owns its text. Names are ordered by the bytes of their texts.
/// ```
/// let (ci, other) = (ProfileName::new(alloc, "ci")?, ProfileName::new(alloc, "default")?);
/// assert!(ci < other);
/// ```
#[derive(Debug, Drop)]
pub struct Name<K> {
    text: String,
    kind: PhantomData<K>,
}

impl<K> Model for Name<K> {
    ghost use Rattle.std.specs.Prelude.{List, ℕ, string_bytes};

    ghost Value = { List ℕ };

    ghost view = { λ name. string_bytes name.text };
}

impl<K> Name<K> {
    /// Copies the text.
    ///
    /// ```
    /// assert_eq!(ScriptId::new(alloc, "set-up")?.as_str(), "set-up");
    /// ```
    ///
    /// # Errors
    ///
    /// Memory was refused.
    pub fn new(alloc: Global, text: &str) -> Result<Self, OutOfMemory>
        ensures { IfOk result (λ name. name ≡ text.now) }
    {
        Ok(Name {
            text: String::from_str(alloc, text)?,
            kind: PhantomData,
        })
    }

    /// The text.
    pub fn as_str(&self) -> &str
        ensures { result.now ≡ self.now }
    {
        self.text.as_str()
    }

    /// A name without a text, which holds no memory.
    pub fn empty(alloc: Global) -> Self
        ensures { result ≡ [] }
    {
        Name {
            text: String::new(alloc),
            kind: PhantomData,
        }
    }

    /// Sets the text, and reuses the name's memory where that is large enough.
    ///
    /// # Errors
    ///
    /// Memory was refused. The name is then empty.
    pub fn replace(&mut self, text: &str) -> Result<(), OutOfMemory>
        ensures replaced { OnOk result (self.new ≡ text.now) }
        ensures emptied { OnErr result (self.new ≡ []) }
    {
        self.text.clear();
        self.text.push_str(text)?;
        Ok(())
    }
}

/// The text.
///
/// ```
/// assert_eq!(ProfileName::new(alloc, "ci")?.to_string(alloc)?.as_str(), "ci");
/// ```
impl<K> fmt::Display for Name<K> {
    ghost output = { λ name. Some name };

    fn fmt<W: fmt::Write>(&self, f: &mut Formatter<W>) -> fmt::Result {
        f.write_str(self.as_str())
    }
}

impl<K> PartialEq for Name<K> {
    ghost eq = { pointwise ◌==◌ };

    ghost laws = { Prim.search (comparing, rules) };

    fn eq(&self, other: &Name<K>) -> bool {
        self.as_str() == other.as_str()
    }
}

impl<K> Eq for Name<K> {
    ghost laws = { Prim.search (comparing, rules) };
}

impl<K> Ord for Name<K> {
    ghost cmp = { slice_cmp nat_cmp };

    ghost total = { Prim.search (comparing, rules) };

    ghost matches_partial_cmp = { Prim.search (comparing, rules) };

    ghost matches_eq = { Prim.search (comparing, rules) };

    fn cmp(&self, other: &Name<K>) -> Ordering {
        self.as_str().cmp(&other.as_str())
    }
}

impl<K> PartialOrd for Name<K> {
    ghost partial_cmp = { as_partial_cmp (slice_cmp nat_cmp) };

    ghost laws = { partial_order_from_own_ties (Prim.search (comparing, rules)) (Prim.search (comparing, rules)) };

    fn partial_cmp(&self, other: &Name<K>) -> Option<Ordering> {
        Some(self.cmp(other))
    }
}

/// The kind of a [`RustBinaryId`].
#[derive(Debug)]
pub struct Binary;

/// The id of a test binary, as `alpha` or `alpha::bin/beta`.
///
/// ```
/// let id = RustBinaryId::new(alloc, "alpha::bin/beta")?;
/// assert_eq!(id.as_str(), "alpha::bin/beta");
/// ```
pub type RustBinaryId = Name<Binary>;

/// The kind of a [`TestCaseName`].
#[derive(Debug)]
pub struct TestCase;

/// The name of a test within its binary, as `module::name`.
///
/// ```
/// assert_eq!(TestCaseName::new(alloc, "parser::empty")?.as_str(), "parser::empty");
/// ```
pub type TestCaseName = Name<TestCase>;

impl Name<TestCase> {
    /// The text cut at its last `::`: the module path, if there is one, and the name in it.
    ///
    /// ```
    /// let name = TestCaseName::new(alloc, "a::b::c")?;
    /// assert_eq!(name.module_path_and_name(), (Some("a::b"), "c"));
    /// ```
    pub fn module_path_and_name(&self) -> (Option<&str>, &str)
        ensures path { optional_text result.0 ≡ module_path_of self.now }
        ensures name { result.1.now ≡ last_name_of self.now }
    {
        cut_at_last_colons(self.as_str())
    }
}

// The text cut at its last `::`.
fn cut_at_last_colons(text: &str) -> (Option<&str>, &str)
    ensures path { optional_text result.0 ≡ module_path_of text.now }
    ensures name { result.1.now ≡ last_name_of text.now }
{
    match text.rsplit_once("::") {
        Some((module_path, name)) => (Some(module_path), name),
        None => (None, text),
    }
}

/// The kind of a [`ProfileName`].
#[derive(Debug)]
pub struct Profile;

/// The name of a profile.
///
/// ```
/// assert_eq!(ProfileName::new(alloc, "ci")?.as_str(), "ci");
/// ```
pub type ProfileName = Name<Profile>;

/// The kind of a [`ScriptId`].
#[derive(Debug)]
pub struct Script;

/// The id of a setup script.
///
/// ```
/// assert_eq!(ScriptId::new(alloc, "set-up-database")?.as_str(), "set-up-database");
/// ```
pub type ScriptId = Name<Script>;

/// The kind of a [`ProgramName`].
#[derive(Debug)]
pub struct Program;

/// The program that a setup script runs, as it was given.
///
/// ```
/// assert_eq!(ProgramName::new(alloc, "./set-up.sh")?.as_str(), "./set-up.sh");
/// ```
pub type ProgramName = Name<Program>;

/// A test: its binary's id and its name in it.
///
/// Its order is by the bytes of the id, then by those of the name.
///
/// ```
/// let (binary_id, test_name) = (RustBinaryId::new(alloc, "alpha")?, TestCaseName::new(alloc, "t1")?);
/// let instance = TestInstanceId { binary_id: &binary_id, test_name: &test_name };
/// assert_eq!(instance.test_name.as_str(), "t1");
/// ```
#[derive(Clone, Copy, Debug, PartialEq, Eq)]
pub struct TestInstanceId<'a> {
    /// The binary's id.
    pub binary_id: &'a RustBinaryId,
    /// The test's name.
    pub test_name: &'a TestCaseName,
}

impl Ord for TestInstanceId<'_> {
    ghost cmp = { instance_cmp };

    ghost total = { Prim.search (comparing, rules) };

    ghost matches_partial_cmp = { Prim.search (comparing, rules) };

    ghost matches_eq = { Prim.search (comparing, rules) };

    fn cmp(&self, other: &TestInstanceId<'_>) -> Ordering {
        self.binary_id
            .cmp(other.binary_id)
            .then(self.test_name.cmp(other.test_name))
    }
}

impl PartialOrd for TestInstanceId<'_> {
    ghost partial_cmp = { as_partial_cmp instance_cmp };

    ghost laws = { partial_order_from_own_ties (Prim.search (comparing, rules)) (Prim.search (comparing, rules)) };

    fn partial_cmp(&self, other: &TestInstanceId<'_>) -> Option<Ordering> {
        Some(self.cmp(other))
    }
}

/// A test that owns its names.
///
/// ```
/// let test = OwnedTestInstanceId::new(alloc, "alpha", "parser::empty")?;
/// assert!(test.as_ref() < OwnedTestInstanceId::new(alloc, "beta", "t1")?.as_ref());
/// ```
#[derive(Debug, Drop)]
pub struct OwnedTestInstanceId {
    /// The binary's id.
    pub binary_id: RustBinaryId,
    /// The test's name.
    pub test_name: TestCaseName,
}

impl OwnedTestInstanceId {
    /// The test of this name in this binary. It copies both texts.
    ///
    /// ```
    /// let test = OwnedTestInstanceId::new(alloc, "alpha", "parser::empty_input")?;
    /// assert_eq!(test.test_name.as_str(), "parser::empty_input");
    /// ```
    ///
    /// # Errors
    ///
    /// Memory was refused.
    pub fn new(alloc: Global, binary_id: &str, test_name: &str) -> Result<Self, OutOfMemory>
        ensures binary_id { IfOk result (λ test. test.binary_id ≡ binary_id.now) }
        ensures test_name { IfOk result (λ test. test.test_name ≡ test_name.now) }
    {
        Ok(OwnedTestInstanceId {
            binary_id: RustBinaryId::new(alloc, binary_id)?,
            test_name: TestCaseName::new(alloc, test_name)?,
        })
    }

    /// The test, its names borrowed.
    ///
    /// ```
    /// let test = OwnedTestInstanceId::new(alloc, "alpha", "t1")?;
    /// assert_eq!(test.as_ref().binary_id.as_str(), "alpha");
    /// ```
    pub fn as_ref(&self) -> TestInstanceId<'_>
        ensures binary_id { result.binary_id.now ≡ self.now.binary_id }
        ensures test_name { result.test_name.now ≡ self.now.test_name }
    {
        TestInstanceId {
            binary_id: &self.binary_id,
            test_name: &self.test_name,
        }
    }
}
