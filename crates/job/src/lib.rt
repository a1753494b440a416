// The job while its records come in, as a value, and as the words of the buffers that hold it and what the seal builds of it. No code.
#![tactic(auto)]
