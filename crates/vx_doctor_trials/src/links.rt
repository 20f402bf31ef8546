//! Refusals of linking in words, worked out by hand for one class.

use crate::programs::folder;
use std::alloc::Global;
use std::test::Fail;
use vx_core::core;
use vx_link::LinkFault;
use vx_model::read_model;
use vx_outlines::{Sought, outlines, put_link_refusal};
use vx_value::Name;

/// A class whose superclass is in no folder, and one of whose superinterfaces is a class.
const SOURCE: &[u8] = b"class 0021 shop/Main shop/Gone
implements java/lang/Runnable
implements java/lang/String
field 0008 A Z
field 0008 N I
field 0000 B Z
method 0009 main ([Ljava/lang/String;)V 1 1
return
end
";

/// What is told of a fault of the class, whose file is `shop/Main.class`, with an option that has the field `C` of the class.
fn told(alloc: Global, fault: &LinkFault) -> Result<Vec<u8>, Fail> {
    let classes = outlines(alloc, folder(alloc, SOURCE)?.as_slice())?;
    let core = outlines(alloc, core(alloc)?.classes.as_slice())?;
    let model = read_model(alloc, b"option C shop.Main C\n")?;
    let mut paths = Vec::new(alloc);
    paths.push(String::from_str(alloc, "shop/Main.class")?)?;
    let sought = Sought {
        classes: classes.as_slice(),
        paths: paths.as_slice(),
        core: core.as_slice(),
        options: model.options.as_slice(),
        main: b"Main",
    };
    let mut text = Vec::new(alloc);
    put_link_refusal(&mut text, &sought, fault)?;
    Ok(text)
}

const MISFITS: &[u8] = b"class shop/Main does not fit its superclass or a superinterface
superclass shop/Gone is neither in the folder nor a core class
superinterface java/lang/String is a class
";

const TWICE: &[u8] = b"class shop/Main is there twice
file shop/Main.class
";

const NO_OPTION: &[u8] = b"option C has a field that is no static one of type boolean
field C is not there
class shop/Main has these static fields of type boolean
field A
";

const NO_MAIN: &[u8] = b"class Main is not in the folder
main shop/Main
";

fn are_misfits_told(alloc: Global) -> Result<bool, Fail> {
    let class = Name::of(alloc, b"shop/Main")?;
    Ok(told(alloc, &LinkFault::NoSuper { class })?.as_slice() == MISFITS)
}

fn is_twice_told(alloc: Global) -> Result<bool, Fail> {
    let class = Name::of(alloc, b"shop/Main")?;
    Ok(told(alloc, &LinkFault::Twice { class })?.as_slice() == TWICE)
}

fn is_option_told(alloc: Global) -> Result<bool, Fail> {
    let option = Name::of(alloc, b"C")?;
    Ok(told(alloc, &LinkFault::NoOption { option })?.as_slice() == NO_OPTION)
}

fn is_main_told(alloc: Global) -> Result<bool, Fail> {
    Ok(told(alloc, &LinkFault::NoMain)?.as_slice() == NO_MAIN)
}

#[test]
fn parents_that_do_not_fit_are_told_beside_their_child(rt: HostRuntime) -> Result<(), Fail> {
    assert!(rt; are_misfits_told(rt.alloc())?);
    Ok(())
}

#[test]
fn the_files_of_a_class_that_is_there_twice_are_told(rt: HostRuntime) -> Result<(), Fail> {
    assert!(rt; is_twice_told(rt.alloc())?);
    Ok(())
}

#[test]
fn fields_that_an_option_can_have_are_told(rt: HostRuntime) -> Result<(), Fail> {
    assert!(rt; is_option_told(rt.alloc())?);
    Ok(())
}

#[test]
fn classes_with_a_main_are_told(rt: HostRuntime) -> Result<(), Fail> {
    assert!(rt; is_main_told(rt.alloc())?);
    Ok(())
}
