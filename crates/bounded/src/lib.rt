// Laws alone, in proofs/: signed sums, differences, products, quotients and shifts of numbers of known size fit.
#![tactic(auto)]
