// Endpoints and names that may not stand there, with the first fault of the file.

/// Endpoints whose text is not of its form.
pub const BAD_URIS: &str = r#"[{"from":{"uri":""}}] => $[0].from.uri BadUri 0
[{"from":{"uri":"direct"}}] => $[0].from.uri BadUri 0
[{"from":{"uri":"seda?size=1"}}] => $[0].from.uri BadUri 0
[{"from":{"uri":"stream"}}] => $[0].from.uri BadUri 0
[{"from":{"uri":"kafka:a"}}] => $[0].from.uri UnknownScheme
[{"from":{"uri":":a"}}] => $[0].from.uri UnknownScheme
[{"from":{"uri":"Direct:a"}}] => $[0].from.uri UnknownScheme
[{"from":{"uri":"abc?x:y"}}] => $[0].from.uri UnknownScheme
[{"from":{"uri":" direct:a"}}] => $[0].from.uri UnknownScheme
[{"from":{"uri":"é:a"}}] => $[0].from.uri UnknownScheme
[{"from":{"uri":"direct:"}}] => $[0].from.uri BadUri 7
[{"from":{"uri":"direct:a b"}}] => $[0].from.uri BadUri 7
[{"from":{"uri":"direct://"}}] => $[0].from.uri BadUri 7
[{"from":{"uri":"direct:///a"}}] => $[0].from.uri BadUri 7
[{"from":{"uri":"direct:nnnnnnnnnnnnnnnnnnnnnnnnnnnnnnnnnnnnnnnnnnnnnnnnnnnnnnnnnnnnnnnnn"}}] => $[0].from.uri BadUri 7
[{"from":{"uri":"direct:a/b"}}] => $[0].from.uri BadUri 7
[{"from":{"uri":"direct:é"}}] => $[0].from.uri BadUri 7
[{"from":{"uri":"seda:"}}] => $[0].from.uri BadUri 5
[{"from":{"uri":"seda:?size=1"}}] => $[0].from.uri BadUri 5
[{"from":{"uri":"seda:a:b"}}] => $[0].from.uri BadUri 5
[{"from":{"uri":"stream:out"}}] => $[0].from.uri BadUri 7
[{"from":{"uri":"stream:"}}] => $[0].from.uri BadUri 7
[{"from":{"uri":"stream:in "}}] => $[0].from.uri BadUri 7
[{"from":{"uri":"stream:header"}}] => $[0].from.uri BadUri 7
[{"from":{"uri":"file:"}}] => $[0].from.uri BadUri 5
[{"from":{"uri":"file:////in"}}] => $[0].from.uri BadUri 5
[{"from":{"uri":"file:a${b"}}] => $[0].from.uri BadUri 5
[{"from":{"uri":"file:a\tb"}}] => $[0].from.uri BadUri 5
[{"from":{"uri":"file:fffffffffffffffffffffffffffffffffffffffffffffffffffffffffffffffffffffffffffffffffffffffffffffffffffffffffffffffffffffffffffffffffffffffffffffffffffffffffffffffffffffffffffffffffffffffffffffffffffffffff"}}] => $[0].from.uri BadUri 5
[{"from":{"uri":"file:ééééééééééééééééééééééééééééééééééééééééééééééééééééééééééééééééééééééééééééééééééééééééééééééééééééé"}}] => $[0].from.uri BadUri 5
[{"from":{"uri":"file:${"}}] => $[0].from.uri BadUri 5
[{"from":{"uri":"file:a\u0000"}}] => $[0].from.uri BadUri 5
[{"from":{"uri":"file://?noop=true"}}] => $[0].from.uri BadUri 5
[{"from":{"uri":"log:"}}] => $[0].from.uri BadUri 4
[{"from":{"uri":"log:a b"}}] => $[0].from.uri BadUri 4
[{"from":{"uri":"line:"}}] => $[0].from.uri BadUri 5
[{"from":{"uri":"line:h"}}] => $[0].from.uri BadUri 5
[{"from":{"uri":"line:7"}}] => $[0].from.uri BadUri 5
[{"from":{"uri":"line:h:"}}] => $[0].from.uri BadUri 5
[{"from":{"uri":"line:h:0"}}] => $[0].from.uri BadUri 5
[{"from":{"uri":"line:h:65536"}}] => $[0].from.uri BadUri 5
[{"from":{"uri":"line:h:07"}}] => $[0].from.uri BadUri 5
[{"from":{"uri":"line:h:+7"}}] => $[0].from.uri BadUri 5
[{"from":{"uri":"line::7"}}] => $[0].from.uri BadUri 5
[{"from":{"uri":"line:h:7:8"}}] => $[0].from.uri BadUri 5
[{"from":{"uri":"line:listen:0"}}] => $[0].from.uri BadUri 5
[{"from":{"uri":"line:listen:65536"}}] => $[0].from.uri BadUri 5
[{"from":{"uri":"line:listen:"}}] => $[0].from.uri BadUri 5
[{"from":{"uri":"lane:"}}] => $[0].from.uri BadUri 5
[{"from":{"uri":"lane:a b"}}] => $[0].from.uri BadUri 5
[{"from":{"uri":"load:"}}] => $[0].from.uri BadUri 5
[{"from":{"uri":"load:0"}}] => $[0].from.uri BadUri 5
[{"from":{"uri":"load:20001"}}] => $[0].from.uri BadUri 5
[{"from":{"uri":"load:01"}}] => $[0].from.uri BadUri 5
[{"from":{"uri":"load:x"}}] => $[0].from.uri BadUri 5
[{"from":{"uri":"load:-1"}}] => $[0].from.uri BadUri 5
[{"from":{"uri":"direct:a?x=1"}}] => $[0].from.uri UnknownOption x
[{"from":{"uri":"direct:a?size=1"}}] => $[0].from.uri UnknownOption size
[{"from":{"uri":"stream:in?x=1"}}] => $[0].from.uri UnknownOption x
[{"from":{"uri":"log:a?size=1"}}] => $[0].from.uri UnknownOption size
[{"from":{"uri":"line:h:7?x="}}] => $[0].from.uri UnknownOption x
[{"from":{"uri":"line:listen:7?x="}}] => $[0].from.uri UnknownOption x
[{"from":{"uri":"lane:x?x="}}] => $[0].from.uri UnknownOption x
[{"from":{"uri":"load:1?x="}}] => $[0].from.uri UnknownOption x
[{"from":{"uri":"seda:a?noop=true"}}] => $[0].from.uri UnknownOption noop
[{"from":{"uri":"file:a?size=1"}}] => $[0].from.uri UnknownOption size
[{"from":{"uri":"seda:a?Size=1"}}] => $[0].from.uri UnknownOption Size
[{"from":{"uri":"seda:a?=1"}}] => $[0].from.uri UnknownOption 
[{"from":{"uri":"seda:a?blockWhenFull=true"}}] => $[0].from.uri UnknownOption blockWhenFull
[{"from":{"uri":"seda:a?discard-when-full=true"}}] => $[0].from.uri UnknownOption discard-when-full
[{"from":{"uri":"seda:a? size=1"}}] => $[0].from.uri UnknownOption  size
[{"from":{"uri":"direct:a?é=1"}}] => $[0].from.uri UnknownOption é
[{"from":{"uri":"seda:a?"}}] => $[0].from.uri BadOption 
[{"from":{"uri":"seda:a?size"}}] => $[0].from.uri BadOption size
[{"from":{"uri":"seda:a?size=1&"}}] => $[0].from.uri BadOption 
[{"from":{"uri":"seda:a?other"}}] => $[0].from.uri BadOption other
[{"from":{"uri":"seda:a?size=1&size"}}] => $[0].from.uri BadOption size
[{"from":{"uri":"direct:a?"}}] => $[0].from.uri BadOption 
[{"from":{"uri":"seda:a?size=0"}}] => $[0].from.uri BadOption size
[{"from":{"uri":"seda:a?size=100001"}}] => $[0].from.uri BadOption size
[{"from":{"uri":"seda:a?size="}}] => $[0].from.uri BadOption size
[{"from":{"uri":"seda:a?size=1=2"}}] => $[0].from.uri BadOption size
[{"from":{"uri":"seda:a?size=01"}}] => $[0].from.uri BadOption size
[{"from":{"uri":"seda:a?size=-1"}}] => $[0].from.uri BadOption size
[{"from":{"uri":"seda:a?concurrentConsumers=0"}}] => $[0].from.uri BadOption concurrentConsumers
[{"from":{"uri":"seda:a?concurrentConsumers=65"}}] => $[0].from.uri BadOption concurrentConsumers
[{"from":{"uri":"seda:a?discardWhenFull=yes"}}] => $[0].from.uri BadOption discardWhenFull
[{"from":{"uri":"file:a?noop="}}] => $[0].from.uri BadOption noop
[{"from":{"uri":"file:a?delete=True"}}] => $[0].from.uri BadOption delete
[{"from":{"uri":"file:a?move="}}] => $[0].from.uri BadOption move
[{"from":{"uri":"file:a?move=a?b"}}] => $[0].from.uri BadOption move
[{"from":{"uri":"file:a?move=${x}"}}] => $[0].from.uri BadOption move
[{"from":{"uri":"file:a?moveFailed="}}] => $[0].from.uri BadOption moveFailed
[{"from":{"uri":"file:a?moveFailed=fffffffffffffffffffffffffffffffffffffffffffffffffffffffffffffffffffffffffffffffffffffffffffffffffffffffffffffffffffffffffffffffffffffffffffffffffffffffffffffffffffffffffffffffffffffffffffffffffffffffff"}}] => $[0].from.uri BadOption moveFailed
[{"from":{"uri":"file:a?fileExist=Move"}}] => $[0].from.uri BadOption fileExist
[{"from":{"uri":"file:a?fileExist=override"}}] => $[0].from.uri BadOption fileExist
[{"from":{"uri":"log:a?level=info"}}] => $[0].from.uri BadOption level
[{"from":{"uri":"file:a?delete=true&noop=true"}}] => $[0].from.uri BadOption delete
[{"from":{"uri":"file:a?noop=true&delete=true&move=b"}}] => $[0].from.uri BadOption delete
[{"from":{"uri":"file:a?move=b&noop=true"}}] => $[0].from.uri BadOption move
[{"from":{"uri":"file:a?move=.camel&delete=true"}}] => $[0].from.uri BadOption move
[{"from":{"uri":"seda:a?size=1&size=2"}}] => $[0].from.uri DoubleOption size
[{"from":{"uri":"seda:a?size=1&size=0"}}] => $[0].from.uri DoubleOption size
[{"from":{"uri":"file:a?noop=false&delete=false&noop=false"}}] => $[0].from.uri DoubleOption noop
[{"from":{"uri":"log:a?level=INFO&level=INFO"}}] => $[0].from.uri DoubleOption level
[{"from":{"uri":"seda:a?size=0&size=0"}}] => $[0].from.uri BadOption size
[{"from":{"uri":"seda:a?x=1&size=0"}}] => $[0].from.uri UnknownOption x
[{"from":{"uri":"file:a\u007fb"}}] => $[0].from.uri BadUri 5
[{"from":{"uri":"seda:a","parameters":{"size":0}}}] => $[0].from.uri BadOption size
[{"from":{"uri":"stream:in","steps":[{"to":{"uri":"seda:a","parameters":{"size":-1}}}]}}] => $[0].from.steps[0].to.uri BadOption size
[{"from":{"uri":"seda:a","parameters":{"size":true}}}] => $[0].from.uri BadOption size
[{"from":{"uri":"stream:in","steps":[{"to":{"uri":"seda:a","parameters":{"size":""}}}]}}] => $[0].from.steps[0].to.uri BadOption size
[{"from":{"uri":"seda:a","parameters":{"discardWhenFull":"maybe"}}}] => $[0].from.uri BadOption discardWhenFull
[{"from":{"uri":"stream:in","steps":[{"to":{"uri":"seda:a","parameters":{"other":1}}}]}}] => $[0].from.steps[0].to.uri UnknownOption other
[{"from":{"uri":"seda:a?size=3","parameters":{"size":3}}}] => $[0].from.uri DoubleOption size
[{"from":{"uri":"stream:in","steps":[{"to":{"uri":"seda:a?size=0","parameters":{"other":1}}}]}}] => $[0].from.steps[0].to.uri BadOption size
[{"from":{"uri":"seda:a","parameters":{"size":0,"concurrentConsumers":0}}}] => $[0].from.uri BadOption concurrentConsumers
[{"from":{"uri":"stream:in","steps":[{"to":{"uri":"direct:a","parameters":{"":"x"}}}]}}] => $[0].from.steps[0].to.uri UnknownOption 
[{"from":{"uri":"file:a","parameters":{"move":"b&c"}}}] => $[0].from.uri BadOption move
[{"from":{"uri":"stream:in","steps":[{"to":{"uri":"file:a","parameters":{"moveFailed":"b\n"}}}]}}] => $[0].from.steps[0].to.uri BadOption moveFailed
[{"from":{"uri":"file:a","parameters":{"noop":true,"delete":"true"}}}] => $[0].from.uri BadOption delete
[{"from":{"uri":"stream:in","steps":[{"to":{"uri":"file:a?noop=true","parameters":{"move":"b"}}}]}}] => $[0].from.steps[0].to.uri BadOption move
[{"from":{"uri":"http:a","parameters":{"other":1}}}] => $[0].from.uri UnknownScheme
[{"from":{"uri":"stream:in","steps":[{"to":{"uri":"seda:","parameters":{"size":0}}}]}}] => $[0].from.steps[0].to.uri BadUri 5
[{"from":{"uri":"seda:a?size","parameters":{"size":1}}}] => $[0].from.uri BadOption size
[{"from":{"uri":"stream:in","steps":[{"to":{"uri":"lane:x","parameters":{"x":""}}}]}}] => $[0].from.steps[0].to.uri UnknownOption x
[{"from":{"uri":"log:a","parameters":{"level":"info"}}}] => $[0].from.uri BadOption level
[{"from":{"uri":"stream:in","steps":[{"to":""}]}}] => $[0].from.steps[0].to BadUri 0
[{"from":{"uri":"stream:in","steps":[{"to":{"uri":""}}]}}] => $[0].from.steps[0].to.uri BadUri 0
[{"errorHandler":{"deadLetterChannel":{"deadLetterUri":""}}}] => $[0].errorHandler.deadLetterChannel.deadLetterUri BadUri 0
[{"from":{"uri":"stream:in","steps":[{"to":"x:y"}]}}] => $[0].from.steps[0].to UnknownScheme
[{"from":{"uri":"stream:in","steps":[{"to":{"uri":"x:y"}}]}}] => $[0].from.steps[0].to.uri UnknownScheme
[{"errorHandler":{"deadLetterChannel":{"deadLetterUri":"x:y"}}}] => $[0].errorHandler.deadLetterChannel.deadLetterUri UnknownScheme
[{"from":{"uri":"stream:in","steps":[{"to":"seda:"}]}}] => $[0].from.steps[0].to BadUri 5
[{"from":{"uri":"stream:in","steps":[{"to":{"uri":"seda:"}}]}}] => $[0].from.steps[0].to.uri BadUri 5
[{"errorHandler":{"deadLetterChannel":{"deadLetterUri":"seda:"}}}] => $[0].errorHandler.deadLetterChannel.deadLetterUri BadUri 5
[{"from":{"uri":"stream:in","steps":[{"to":"seda:q?x=1"}]}}] => $[0].from.steps[0].to UnknownOption x
[{"from":{"uri":"stream:in","steps":[{"to":{"uri":"seda:q?x=1"}}]}}] => $[0].from.steps[0].to.uri UnknownOption x
[{"errorHandler":{"deadLetterChannel":{"deadLetterUri":"seda:q?x=1"}}}] => $[0].errorHandler.deadLetterChannel.deadLetterUri UnknownOption x
[{"from":{"uri":"stream:in","steps":[{"to":"seda:q?size=0"}]}}] => $[0].from.steps[0].to BadOption size
[{"from":{"uri":"stream:in","steps":[{"to":{"uri":"seda:q?size=0"}}]}}] => $[0].from.steps[0].to.uri BadOption size
[{"errorHandler":{"deadLetterChannel":{"deadLetterUri":"seda:q?size=0"}}}] => $[0].errorHandler.deadLetterChannel.deadLetterUri BadOption size
[{"from":{"uri":"stream:in","steps":[{"to":"seda:q?size=1&size=1"}]}}] => $[0].from.steps[0].to DoubleOption size
[{"from":{"uri":"stream:in","steps":[{"to":{"uri":"seda:q?size=1&size=1"}}]}}] => $[0].from.steps[0].to.uri DoubleOption size
[{"errorHandler":{"deadLetterChannel":{"deadLetterUri":"seda:q?size=1&size=1"}}}] => $[0].errorHandler.deadLetterChannel.deadLetterUri DoubleOption size"#;

/// Endpoints on the side where they may not stand, and names that are not handed in.
pub const WRONG_SIDES: &str = r##"[{"from":{"uri":"log:a"}}] => $[0].from.uri NotConsumer
[{"from":{"uri":"log:a?level=INFO"}}] => $[0].from.uri NotConsumer
[{"from":{"uri":"line:h:7"}}] => $[0].from.uri NotConsumer
[{"from":{"uri":"lane:x"}}] => $[0].from.uri NotConsumer
[{"from":{"uri":"lane:y"}}] => $[0].from.uri NotConsumer
[{"from":{"uri":"stream:in","steps":[{"to":"stream:in"}]}}] => $[0].from.steps[0].to NotProducer
[{"from":{"uri":"stream:in","steps":[{"to":{"uri":"stream:in"}}]}}] => $[0].from.steps[0].to.uri NotProducer
[{"errorHandler":{"deadLetterChannel":{"deadLetterUri":"stream:in"}}}] => $[0].errorHandler.deadLetterChannel.deadLetterUri NotProducer
[{"from":{"uri":"stream:in","steps":[{"to":"line:listen:7"}]}}] => $[0].from.steps[0].to NotProducer
[{"from":{"uri":"stream:in","steps":[{"to":{"uri":"line:listen:7"}}]}}] => $[0].from.steps[0].to.uri NotProducer
[{"errorHandler":{"deadLetterChannel":{"deadLetterUri":"line:listen:7"}}}] => $[0].errorHandler.deadLetterChannel.deadLetterUri NotProducer
[{"from":{"uri":"stream:in","steps":[{"to":"load:3"}]}}] => $[0].from.steps[0].to NotProducer
[{"from":{"uri":"stream:in","steps":[{"to":{"uri":"load:3"}}]}}] => $[0].from.steps[0].to.uri NotProducer
[{"errorHandler":{"deadLetterChannel":{"deadLetterUri":"load:3"}}}] => $[0].errorHandler.deadLetterChannel.deadLetterUri NotProducer
[{"from":{"uri":"stream:in","steps":[{"to":"lane:y"}]}}] => $[0].from.steps[0].to NotRegistered lane:y
[{"from":{"uri":"stream:in","steps":[{"to":{"uri":"lane://y"}}]}}] => $[0].from.steps[0].to.uri NotRegistered lane:y
[{"from":{"uri":"stream:in","steps":[{"to":"lane:X"}]}}] => $[0].from.steps[0].to NotRegistered lane:X
[{"error-handler":{"dead-letter-channel":{"dead-letter-uri":"lane:y"}}}] => $[0].error-handler.dead-letter-channel.dead-letter-uri NotRegistered lane:y
[{"from":{"uri":"stream:in","steps":[{"process":"drop"}]}}] => $[0].from.steps[0].process NotRegistered drop
[{"from":{"uri":"stream:in","steps":[{"process":"empty"}]}}] => $[0].from.steps[0].process NotRegistered empty
[{"from":{"uri":"stream:in","steps":[{"process":"#Keep"}]}}] => $[0].from.steps[0].process NotRegistered Keep
[{"from":{"uri":"stream:in","steps":[{"process":{"ref":"#drop"}}]}}] => $[0].from.steps[0].process.ref NotRegistered drop
[{"from":{"uri":"stream:in","steps":[{"filter":{"ref":"keep","steps":[]}}]}}] => $[0].from.steps[0].filter.ref NotRegistered keep
[{"from":{"uri":"stream:in","steps":[{"filter":{"ref":"#full","steps":[]}}]}}] => $[0].from.steps[0].filter.ref NotRegistered full
[{"from":{"uri":"stream:in","steps":[{"filter":{"expression":{"ref":"full"},"steps":[]}}]}}] => $[0].from.steps[0].filter.expression.ref NotRegistered full
[{"from":{"uri":"stream:in","steps":[{"choice":{"when":[{"ref":"full","steps":[]}]}}]}}] => $[0].from.steps[0].choice.when[0].ref NotRegistered full
[{"from":{"uri":"stream:in","steps":[{"choice":{"when":[{"expression":{"ref":"full"},"steps":[]}]}}]}}] => $[0].from.steps[0].choice.when[0].expression.ref NotRegistered full"##;

/// Files that are read where nothing is handed in.
pub const UNREGISTERED: &str =
    r##"[{"from":{"uri":"stream:in"}}] => $[0].from.uri NotRegistered stream
[{"from":{"uri":"file:a"}}] => $[0].from.uri NotRegistered file
[{"from":{"uri":"file:a?noop=true"}}] => $[0].from.uri NotRegistered file
[{"from":{"uri":"line:listen:7"}}] => $[0].from.uri NotRegistered line
[{"from":{"uri":"load:1"}}] => $[0].from.uri NotRegistered load
[{"from":{"uri":"direct:a","steps":[{"to":"file:a"}]}}] => $[0].from.steps[0].to NotRegistered file
[{"from":{"uri":"direct:a","steps":[{"to":{"uri":"file:a"}}]}}] => $[0].from.steps[0].to.uri NotRegistered file
[{"errorHandler":{"deadLetterChannel":{"deadLetterUri":"file:a"}}}] => $[0].errorHandler.deadLetterChannel.deadLetterUri NotRegistered file
[{"from":{"uri":"direct:a","steps":[{"to":"line:h:7"}]}}] => $[0].from.steps[0].to NotRegistered line
[{"from":{"uri":"direct:a","steps":[{"to":{"uri":"line:h:7"}}]}}] => $[0].from.steps[0].to.uri NotRegistered line
[{"errorHandler":{"deadLetterChannel":{"deadLetterUri":"line:h:7"}}}] => $[0].errorHandler.deadLetterChannel.deadLetterUri NotRegistered line
[{"from":{"uri":"direct:a","steps":[{"to":"lane:x"}]}}] => $[0].from.steps[0].to NotRegistered lane:x
[{"from":{"uri":"direct:a","steps":[{"to":{"uri":"lane:x"}}]}}] => $[0].from.steps[0].to.uri NotRegistered lane:x
[{"errorHandler":{"deadLetterChannel":{"deadLetterUri":"lane:x"}}}] => $[0].errorHandler.deadLetterChannel.deadLetterUri NotRegistered lane:x
[{"from":{"uri":"direct:a","steps":[{"to":"lane:file"}]}}] => $[0].from.steps[0].to NotRegistered lane:file
[{"from":{"uri":"direct:a","steps":[{"to":{"uri":"lane:file"}}]}}] => $[0].from.steps[0].to.uri NotRegistered lane:file
[{"errorHandler":{"deadLetterChannel":{"deadLetterUri":"lane:file"}}}] => $[0].errorHandler.deadLetterChannel.deadLetterUri NotRegistered lane:file
[{"from":{"uri":"direct:a","steps":[{"process":"keep"}]}}] => $[0].from.steps[0].process NotRegistered keep
[{"from":{"uri":"direct:a","steps":[{"filter":{"ref":"#empty","steps":[]}}]}}] => $[0].from.steps[0].filter.ref NotRegistered empty
[{"route":{"from":{"steps":[{"to":"direct:a"},{"to":"seda:q"},{"to":"log:a"}],"uri":"direct:a"},"id":"r"}}] => [{"route":{"from":{"steps":[{"to":"direct:a"},{"to":"seda:q"},{"to":"log:a"}],"uri":"direct:a"},"id":"r"}}]
[{"route":{"from":{"steps":[],"uri":"seda:q"},"id":"r"}}] => [{"route":{"from":{"steps":[],"uri":"seda:q"},"id":"r"}}]"##;
