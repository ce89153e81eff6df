//! What holds of tables by name, which are lists of entries: each a name, and what is under it.
//! What holds of every row of the table of commands, of its look-ups, and of the layouts.

ghost use Rattle.std.specs.Prelude.{◌≡◌, List, None, Some, Option, false, ◌↔◌, ℕ, IsTrue, true, map, slice_get, sum_by};
ghost use Rattle.std.specs.List.{IsDistinct, Contains};
ghost use Rattle.std.specs.Map.{keys_of, lookup, remove_entry, set_value};
ghost use Rattle.indexmap.specs.IndexMap.{insert_entry};
ghost use Rattle.cx_base.specs.Arguments.{argument_index, arguments_in, has_option, option_of};
ghost use Rattle.cx_base.specs.Legal.{has_bit};
ghost use Rattle.cx_base.specs.Commands.{command_called, command_with, row_of};
ghost use Rattle.cx_base.specs.Options.{is_option};
ghost use Rattle.cx_base.specs.Eib.{eib_field, eib_fields, eib_len, eib_pieces};
ghost use Rattle.cx_base.specs.Eistg.{eistg_field, eistg_fields, eistg_head};
ghost use Rattle.cx_base.specs.Laws.Layouts.{lie_in_order};
ghost use Rattle.cx_base.specs.Laws.Rows.{have_own_bits, has_own_bits, have_own_names, measured_have_length, rules_name_options};
ghost use Rattle.cx_base.specs.declared.commands.Command.{Command};
ghost use Rattle.cx_base.specs.declared.eib.EibField.{EibField};
ghost use Rattle.cx_base.specs.declared.eistg.EistgField.{EistgField};
ghost use Rattle.cx_base.specs.declared.options.CommandOption.{CommandOption};
ghost use Rattle.cx_base.specs.declared.options.OptionName.{OptionName};

/// What is put under a name is found there.
pub fn a_name_put_in_is_found<K: Eq, V>()
    ensures { (entries : List (K × V)) (name : K) (value : V)
        → lookup (K.eq name) (insert_entry K.eq entries name value) ≡ Some value }
{}

/// What is set under a name that is there is found there.
pub fn a_value_set_is_found<K: Eq, V>()
    ensures { (entries : List (K × V)) (name : K) (old value : V) → lookup (K.eq name) entries ≡ Some old
        → lookup (K.eq name) (set_value (K.eq name) entries value) ≡ Some value }
{}

/// A name that is taken out is gone, where no name is there twice.
pub fn a_name_taken_out_is_gone<K: Eq, V>()
    ensures { (entries : List (K × V)) (name : K) → IsDistinct K.eq (keys_of entries)
        → lookup (K.eq name) (remove_entry (K.eq name) entries) ≡ None }
{}

/// Under every other name all stays as it was.
pub fn other_names_stay<K: Eq, V>()
    ensures put { (entries : List (K × V)) (name other : K) (value : V) → K.eq name other ≡ false
        → lookup (K.eq other) (insert_entry K.eq entries name value) ≡ lookup (K.eq other) entries }
    ensures set { (entries : List (K × V)) (name other : K) (value : V) → K.eq name other ≡ false
        → lookup (K.eq other) (set_value (K.eq name) entries value) ≡ lookup (K.eq other) entries }
    ensures removed { (entries : List (K × V)) (name other : K) → K.eq name other ≡ false
        → lookup (K.eq other) (remove_entry (K.eq name) entries) ≡ lookup (K.eq other) entries }
{}

/// Each option of a command has a bit of its own.
pub fn options_have_bits_of_their_own()
    ensures one_bit { (command : Command) → IsTrue (has_own_bits (row_of command).options) }
    ensures apart { (command : Command) → IsTrue (have_own_bits (row_of command).options) }
{}

/// Each option of a command has a name of its own.
pub fn options_have_names_of_their_own()
    ensures { (command : Command) → IsTrue (have_own_names (row_of command).options) }
{}

/// Each rule of a command speaks of bits of its options.
pub fn rules_speak_of_options()
    ensures { (command : Command) → IsTrue (rules_name_options (row_of command).options (row_of command).rules) }
{}

/// Each option at which a command reads or writes as many bytes as LENGTH says has LENGTH beside it.
pub fn bytes_have_a_length()
    ensures { (command : Command) → IsTrue (measured_have_length (row_of command).options (row_of command).rules) }
{}

/// `is_option` is true exactly where both are the same option.
pub fn options_are_themselves()
    ensures { (one other : OptionName) → (is_option one other ≡ true) ↔ (one ≡ other) }
{}

/// An option of a command is found by its name, and option byte 1 has it exactly where it has its bit.
pub fn options_are_asked_by_name()
    ensures row { (command : Command) (k : ℕ) (option : CommandOption)
        → slice_get (row_of command).options k ≡ Some option → option_of command option.name ≡ Some option }
    ensures bit { (command : Command) (k first : ℕ) (option : CommandOption)
        → slice_get (row_of command).options k ≡ Some option → has_option command first option.name
        ≡ has_bit first option.bit }
{}

/// Each argument of an argument list is found by the name of its option.
pub fn arguments_are_found_by_name()
    ensures { (command : Command) (first k : ℕ) (option : CommandOption)
        → slice_get (arguments_in (row_of command).options first) k ≡ Some option
        → argument_index command first option.name ≡ Some k }
{}

/// A command is found exactly by its function value, and exactly by its name.
pub fn commands_are_found()
    ensures by_function { (function : ℕ) (command : Command)
        → (command_with function ≡ Some command) ↔ ((row_of command).function ≡ function) }
    ensures by_name { (name : List ℕ) (command : Command)
        → (command_called name ≡ Some command) ↔ ((row_of command).name ≡ name) }
{}

/// All fields of the EIB lie in order within its 88 bytes, and with its gaps they fill it.
pub fn eib_fields_lie_in_order()
    ensures all { (field : EibField) → Contains eib_fields field }
    ensures order { IsTrue (lie_in_order 0 (map eib_field eib_fields) eib_len) }
    ensures whole { sum_by (λ piece. piece.len) eib_pieces ≡ eib_len }
{}

/// All fields at the head of DFHEISTG lie in order within its 80 bytes.
pub fn eistg_fields_lie_in_order()
    ensures all { (field : EistgField) → Contains eistg_fields field }
    ensures order { IsTrue (lie_in_order 0 (map eistg_field eistg_fields) eistg_head) }
{}
