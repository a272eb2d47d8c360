//! What holds of the texts of states.

ghost use Rattle.std.specs.Prelude.{◌≡◌, ◌==◌, count_by};
ghost use Rattle.std.specs.Str.{byte};
ghost use Rattle.dms_sign_access.specs.declared.settings.SignSettings.{SignSettings};
ghost use Rattle.dms_sign_state.specs.NumberSettings.{settings_lines};
ghost use Rattle.dms_sign_state.specs.Fields.{FieldsModel, AreFields, AreSettings};
ghost use Rattle.dms_sign_state.specs.FieldsText.{settings_text, text_of_fields};

/// Two states have two texts.
pub fn texts_tell_states_apart()
    ensures { (one other : FieldsModel) → AreFields one → AreFields other
        → text_of_fields one ≡ text_of_fields other → one ≡ other }
{}

/// The settings have so many lines of a text.
pub fn settings_have_their_lines()
    ensures { (settings : SignSettings) → AreSettings settings
        → count_by (λ octet. octet == byte "\n") (settings_text settings) ≡ settings_lines }
{}
