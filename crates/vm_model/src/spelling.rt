//! The law of descriptors (JVMS 4.3): what is read of one is what its grammar says.
//! Each spells one type or signature at most, and each type and signature has one descriptor.

ghost use Rattle.std.specs.Prelude.{◌≡◌, ◌↔◌, Some};
ghost use Rattle.mg_text.specs.Call.{Name};
ghost use Rattle.vm_model.specs.Types.{FieldType, Signature, IsFieldDescriptor, IsMethodDescriptor, signature_of, type_of};

/// A descriptor is read as a signature, or as a type, exactly where it is the descriptor of that
/// one. It is the descriptor of one signature at most, and a signature has one descriptor.
pub fn descriptors_spell_one()
    ensures method { (d : Name) → (s : Signature) → (signature_of d ≡ Some s) ↔ IsMethodDescriptor d s }
    ensures field { (d : Name) → (t : FieldType) → (type_of d ≡ Some t) ↔ IsFieldDescriptor d t }
    ensures one_signature { (d : Name) → (s t : Signature) → IsMethodDescriptor d s → IsMethodDescriptor d t → s ≡ t }
    ensures one_descriptor { (d e : Name) → (s : Signature) → IsMethodDescriptor d s → IsMethodDescriptor e s → d ≡ e }
{}
