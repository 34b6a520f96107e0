// The routes whose journals are audited.

/// Each line goes to a log.
pub const LOGGING: &str = r#"[{"from":{"uri":"stream:in","steps":[{"to":"log:out"}]}}]"#;

/// A lane that is tried three times.
pub const RETRYING: &str =
    r#"[{"errorHandler":{"deadLetterChannel":{"deadLetterUri":"log:dead","redeliveryPolicy":{"maximumRedeliveries":2}}}},{"from":{"uri":"stream:in","steps":[{"to":"lane:x"},{"log":"${header.CamelRedeliveryCounter}"}]}}]"#;

/// Each line once.
pub const KEYED: &str =
    r#"[{"from":{"uri":"stream:in","steps":[{"idempotentConsumer":{"simple":"${body}","steps":[{"to":"log:out"}]}}]}}]"#;

/// Copies of each line wait in two queues.
pub const QUEUED: &str =
    r#"[{"from":{"uri":"stream:in","steps":[{"to":"seda:p"},{"to":"seda:q"}]}},{"from":{"uri":"seda:p","steps":[{"to":"log:p"}]}},{"from":{"uri":"seda:q","steps":[{"to":"log:q"}]}}]"#;

/// Two parts of each line at one time, of which the first becomes `x` and the second `y`.
pub const JOINED: &str =
    r#"[{"from":{"uri":"stream:in","steps":[{"multicast":{"parallelProcessing":true,"steps":[{"setBody":{"constant":"x"}},{"setBody":{"constant":"y"}}]}}]}}]"#;

/// Groups of two lines, or of what is left.
pub const GROUPED: &str =
    r#"[{"from":{"uri":"stream:in","steps":[{"aggregate":{"correlationExpression":{"constant":"k"},"completionSize":2,"forceCompletionOnStop":true,"steps":[{"to":"log:out"}]}}]}}]"#;
