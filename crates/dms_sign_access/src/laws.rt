//! Laws over the definitions of specs/ alone, stated as functions with nothing to run.

ghost use Rattle.std.specs.Prelude.{◌≡◌, map};
ghost use Rattle.dms_mib.specs.declared.objects.Object.{Object};
ghost use Rattle.dms_mib.specs.Objects.{is_written, listed};
ghost use Rattle.dms_sign_access.specs.Settable.{is_settable_in};

/// What can be set are the objects and the columns that the table of objects says are written.
pub fn settable_objects_are_those_of_the_table()
    ensures { map (λ (object : Object). is_settable_in object.instances) listed
        ≡ map (λ (object : Object). is_written object.access) listed }
{}
