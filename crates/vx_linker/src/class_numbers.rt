//! The numbers of classes: the places of their names among those of the folder's and then of the core classes.

ghost use Rattle.std.specs.Prelude.{◌≡◌, ◌+◌, ◌<◌, ◌^◌, ◌++◌, length, option_map, IfSome};
ghost use Rattle.vx_names.specs.Names.{place_of};
ghost use Rattle.vx_link.specs.Linked.{class_id};

use vx_names::NameTable;
use vx_value::ClassId;

/// Tables of the names of the folder's classes and of the core classes.
#[derive(Drop)]
pub struct ClassNumbers {
    pub folder: NameTable,
    pub core: NameTable,
}

impl ClassNumbers {
    fn place_in_core(&self, name: &[u8]) -> Option<usize>
        ensures place { result ≡ option_map (λ place. length self.now.folder + place) (place_of self.now.core name.now) }
        ensures within { IfSome result (λ place. place < length self.now.folder + length self.now.core) }
    {
        let (before, count) = (self.folder.len(), self.core.len());
        match self.core.place_of(name) {
            Some(place) => {
                prove!(place < count);
                Some(before + place)
            }
            None => None,
        }
    }

    /// The place of a name among the names of the folder's classes and then of the core classes.
    pub fn place_of(&self, name: &[u8]) -> Option<usize>
        ensures place { result ≡ place_of (self.now.folder ++ self.now.core) name.now }
        ensures within { IfSome result (λ place. place < length self.now.folder + length self.now.core) }
    {
        match self.folder.place_of(name) {
            Some(place) => Some(place),
            None => self.place_in_core(name),
        }
    }

    /// The number of the class of a name, or 0 where there is none.
    pub fn class_id(&self, name: &[u8]) -> ClassId
        requires { length self.now.folder + length self.now.core < 2 ^ 16 }
        ensures { result ≡ class_id (self.now.folder ++ self.now.core) name.now }
    {
        match self.place_of(name) {
            Some(place) => ClassId(place as u32),
            None => ClassId(0),
        }
    }
}
