//! A linked program and its parts, each named by its number.

ghost use Rattle.std.specs.Prelude.{◌≡◌, option_copied, slice_get};

use crate::access_flags::AccessFlags;
use crate::class_list::ClassList;
use crate::member_list::MemberList;
use crate::shared_name::SharedName;
use vx_class::Code;
use vx_list::Items;
use vx_pool::Pool;
use vx_value::{ClassId, FieldId, MethodId, Name};

/// A program: the classes of the folder and then the core classes, with their methods and fields numbered through. A number is
/// a place in its list.
#[derive(Drop)]
pub struct Program {
    pub classes: ClassList,
    pub methods: MemberList<LinkedMethod>,
    pub fields: MemberList<LinkedField>,
    /// The method with which a run begins.
    pub main: MethodId,
    /// The field of each option of the model, or `None` for an option without a field.
    pub options: Items<Option<FieldId>>,
}

impl Program {
    /// The class of a number, or `None` where the program has no such class.
    pub fn class(&self, class: ClassId) -> Option<&LinkedClass>
        ensures { option_copied result ≡ slice_get self.now.classes class.0 }
    {
        self.classes.get(class.0 as usize)
    }

    /// The method of a number, or `None` where the program has no such method.
    pub fn method(&self, method: MethodId) -> Option<&LinkedMethod>
        ensures { option_copied result ≡ slice_get self.now.methods method.0 }
    {
        self.methods.get(method.0 as usize)
    }

    /// The field of a number, or `None` where the program has no such field.
    pub fn field(&self, field: FieldId) -> Option<&LinkedField>
        ensures { option_copied result ≡ slice_get self.now.fields field.0 }
    {
        self.fields.get(field.0 as usize)
    }
}

/// A class or an interface of a program.
#[derive(Drop)]
pub struct LinkedClass {
    pub name: Name,
    /// `None` for `java/lang/Object` alone.
    pub superclass: Option<ClassId>,
    /// The direct superinterfaces in file order.
    pub interfaces: Items<ClassId>,
    pub flags: AccessFlags,
    pub pool: Pool,
    /// The methods of the class file, in its order.
    pub methods: Items<MethodId>,
    /// The fields of the class file, in its order.
    pub fields: Items<FieldId>,
    /// The class's `<clinit>`, or a method whose code is one `return` where it has none.
    pub initialiser: MethodId,
    /// Whether the class file has a `<clinit>`.
    pub own_initialiser: bool,
}

/// A method of a program.
#[derive(Drop)]
pub struct LinkedMethod {
    pub class: ClassId,
    pub name: SharedName,
    pub descriptor: SharedName,
    /// A `<clinit>` has `STATIC`, and neither `ABSTRACT` nor `NATIVE`.
    pub flags: AccessFlags,
    pub code: Option<Code>,
    /// The number of a native method of a core class, or 0.
    pub native: u32,
}

/// A field of a program.
#[derive(Drop)]
pub struct LinkedField {
    pub class: ClassId,
    pub name: SharedName,
    pub descriptor: SharedName,
    /// A field of an interface has `STATIC`.
    pub flags: AccessFlags,
    /// The place of an instance field among the cells of an object, or 0 for a static field.
    pub cell: u32,
    /// The index of its constant in the class's pool, or 0.
    pub constant: u16,
    /// The option whose field it is.
    pub option: Option<u32>,
}
