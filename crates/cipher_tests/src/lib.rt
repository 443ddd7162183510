//! Worked values of the ciphers and of their kernels on lanes.
#![tactic(auto)]

#[cfg(test)]
mod aes;
#[cfg(test)]
mod gcm;
#[cfg(test)]
mod lanes;
#[cfg(test)]
mod lengths;
