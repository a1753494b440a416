// What holds of a file within the limits: of its job, of what a seal builds of it, of what every record leaves. No code.
#![tactic(auto)]
