ghost use Rattle.std.specs.Prelude.{◌≡◌};
ghost use Rattle.commit_payloads.specs.declared.payload.Payload.{Payload};
ghost use Rattle.commit_payloads.specs.Payloads.{spelled_payload, HasSpelling};

/// A law: payloads of one spelling are the same payload.
pub fn payloads_have_one_spelling()
    ensures { (a b : Payload) → HasSpelling a → HasSpelling b → spelled_payload a ≡ spelled_payload b → a ≡ b }
{}
