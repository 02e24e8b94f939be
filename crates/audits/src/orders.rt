/// A file of evidence to judge.
#[derive(Clone, Copy, Debug)]
pub struct JudgeOrder<'a> {
    /// The text of the provider's public key, 64 hexadecimal digits.
    pub signing_key: &'a str,
    /// The file's name, as the system takes it.
    pub file: &'a str,
}

/// Signed roots on standard input to audit.
#[derive(Clone, Copy, Debug)]
pub struct AuditOrder<'a> {
    /// The text of the provider's public key, 64 hexadecimal digits.
    pub signing_key: &'a str,
}
