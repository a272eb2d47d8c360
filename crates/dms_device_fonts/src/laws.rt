//! Laws over the definitions of specs/ alone, stated as functions with nothing to run.

ghost use Rattle.dms_mib_replies.specs.Walk.{IsWalk};
ghost use Rattle.dms_face.specs.Face.{FaceModel};
ghost use Rattle.dms_device_fonts.specs.Tree.{Tree, tree_value, tree_after};
ghost use Rattle.dms_device_fonts.specs.Fonts.{fonts_value, fonts_after};

/// From any name a tree is walked to the next one that it reads, in the order of names.
pub fn trees_are_walked()
    ensures { (tree : Tree) → IsWalk (tree_value tree) (tree_after tree) }
{}

/// From any name the objects of the fonts are walked to the next one that is read, in the order of names.
pub fn fonts_are_walked()
    ensures { (face : FaceModel) → IsWalk (fonts_value face) (fonts_after face) }
{}
