// Files with faults of objects and items as a whole, and with several faults.

/// Objects whose keys do not go together.
pub const WHOLE_OBJECTS: &str =
    r#"[{"route":{"from":{"uri":"direct:a","steps":[]},"steps":[]}}] => $[0].route StepsTwice
[{"route":{"id":"r","steps":[{"to":"log:a"}],"from":{"uri":"direct:a","steps":[{"to":"log:a"}]}}}] => $[0].route StepsTwice
[{"from":{"uri":"direct:a"}},{"route":{"from":{"uri":"direct:b","steps":[]},"steps":[{"to":"log:a"}]}}] => $[1].route StepsTwice
[{"onException":{"exception":"E","handled":true,"continued":true}}] => $[0].onException BothHandledAndContinued
[{"onException":{"exception":"E","handled":true,"continued":{"constant":"true"}}}] => $[0].onException BothHandledAndContinued
[{"onException":{"exception":"E","handled":"true","continued":true}}] => $[0].onException BothHandledAndContinued
[{"onException":{"exception":"E","handled":"true","continued":{"constant":"true"}}}] => $[0].onException BothHandledAndContinued
[{"onException":{"exception":"E","handled":{"constant":true},"continued":true}}] => $[0].onException BothHandledAndContinued
[{"onException":{"exception":"E","handled":{"constant":true},"continued":{"constant":"true"}}}] => $[0].onException BothHandledAndContinued
[{"onException":{"exception":"E","handled":{"constant":"true"},"continued":true}}] => $[0].onException BothHandledAndContinued
[{"onException":{"exception":"E","handled":{"constant":"true"},"continued":{"constant":"true"}}}] => $[0].onException BothHandledAndContinued
[{"from":{"uri":"stream:in","steps":[{"aggregate":{"correlationExpression":{"header":"h"},"steps":[]}}]}}] => $[0].from.steps[0].aggregate NoCompletion
[{"from":{"uri":"stream:in","steps":[{"aggregate":{"correlationExpression":{"header":"h"},"steps":[],"forceCompletionOnStop":false}}]}}] => $[0].from.steps[0].aggregate NoCompletion
[{"from":{"uri":"stream:in","steps":[{"aggregate":{"correlationExpression":{"header":"h"},"steps":[],"forceCompletionOnStop":"false","aggregationStrategy":"sum"}}]}}] => $[0].from.steps[0].aggregate NoCompletion"#;

/// Files with several faults, of which the first is told.
pub const SEVERAL_FAULTS: &str =
    r#"[{"from":{"steps":null,"other":1}}] => $[0].from UnknownKey other
[{"from":{"other":1}}] => $[0].from UnknownKey other
[{"from":{"steps":null}}] => $[0].from MissingKey uri
[{"from":{"uri":"stream:in","steps":[{"setBody":{"zone":1,"constant":"x","area":2}}]}}] => $[0].from.steps[0].setBody UnknownKey area
[{"from":{"uri":"stream:in","steps":[{"setBody":{"😀":1,"constant":"x","ｚ":2}}]}}] => $[0].from.steps[0].setBody UnknownKey ｚ
[{"from":{"uri":"stream:in","steps":[{"setBody":{"é":1,"constant":"x","z":2}}]}}] => $[0].from.steps[0].setBody UnknownKey z
[{"from":{"uri":"stream:in","steps":[{"setBody":{"a":1,"constant":"x","Z":2}}]}}] => $[0].from.steps[0].setBody UnknownKey Z
[{"from":{"uri":"stream:in","steps":[{"setBody":{"ab":1,"constant":"x","a":2}}]}}] => $[0].from.steps[0].setBody UnknownKey a
[{"from":{"uri":"stream:in","steps":[{"setBody":{"simple":"x","other":1,"constant":"x"}}]}}] => $[0].from.steps[0].setBody UnknownKey other
[{"from":{"uri":"stream:in","steps":[{"setBody":{"header":"h","other":1,"constant":"x"}}]}}] => $[0].from.steps[0].setBody DoubleKey header
[{"from":{"uri":"stream:in","steps":[{"log":{"message":"m","logName":"l","log-name":"l","logNames":"l"}}]}}] => $[0].from.steps[0].log DoubleKey logName
[{"from":{"uri":"stream:in","steps":[{"log":{"message":"m","logName":"l","log-name":"l","Name":"l"}}]}}] => $[0].from.steps[0].log UnknownKey Name
[{"from":{"uri":"stream:in","steps":[{"split":{"tokenize":",","jsonpath":"$[*]"}}]}}] => $[0].from.steps[0].split DoubleKey tokenize
[{"from":{"uri":"stream:in","steps":[{"setHeader":{"name":"","constant":null}}]}}] => $[0].from.steps[0].setHeader.constant WrongKind
[{"from":{"uri":"stream:in","steps":[{"setHeader":{"name":"","simple":"${"}}]}}] => $[0].from.steps[0].setHeader.name BadName
[{"from":{"uri":"stream:in","steps":[{"log":{"message":null,"loggingLevel":null,"log-name":null}}]}}] => $[0].from.steps[0].log.log-name WrongKind
[{"from":{"uri":"stream:in","steps":[{"log":{"message":null,"loggingLevel":null,"logName":null}}]}}] => $[0].from.steps[0].log.logName WrongKind
[{"from":{"uri":"stream:in","steps":[{"log":{"message":null,"logging-level":null,"logName":null}}]}}] => $[0].from.steps[0].log.logName WrongKind
[{"from":{"uri":"stream:in","steps":[{"throwException":{"exceptionType":"","message":"${"}}]}}] => $[0].from.steps[0].throwException.exceptionType BadName
[{"from":{"uri":"nothing","steps":null}}] => $[0].from.steps WrongKind
[{"from":{"uri":"nothing","parameters":{"size":null}}}] => $[0].from.parameters.size WrongKind
[{"from":{"uri":"nothing","parameters":{"b":null,"a":[]}}}] => $[0].from.parameters.a WrongKind
[{"from":{"uri":null,"id":1,"description":[]}}] => $[0].from.description WrongKind
[{"route":{"id":"","from":{"uri":""},"steps":null}}] => $[0].route.from.uri BadUri 0
[{"route":{"id":"","from":{"uri":"direct:a"},"steps":null}}] => $[0].route.id BadName
[{"onException":{"exception":[1,null],"handled":1,"continued":1}}] => $[0].onException.continued WrongKind
[{"onException":{"exception":["E",null],"handled":1}}] => $[0].onException.exception[1] WrongKind
[{"onException":{"exception":"E","steps":[1],"redelivery-policy":1}}] => $[0].onException.redelivery-policy WrongKind
[{"from":{"uri":"stream:in","steps":[{"choice":{"when":null,"otherwise":null}}]}}] => $[0].from.steps[0].choice.otherwise WrongKind
[{"from":{"uri":"stream:in","steps":[{"choice":{"when":[{"ref":"empty","steps":[1]},{}],"otherwise":{"steps":[2]}}}]}}] => $[0].from.steps[0].choice.otherwise.steps[0] WrongKind
[{"from":{"uri":"stream:in","steps":[{"choice":{"when":[{"ref":"empty","steps":[1]},{}]}}]}}] => $[0].from.steps[0].choice.when[0].steps[0] WrongKind
[{"from":{"uri":"stream:in","steps":[{"choice":{"when":[{"ref":"","steps":[1]}]}}]}}] => $[0].from.steps[0].choice.when[0].ref BadName
[{"from":{"uri":"stream:in","steps":[{"filter":{"simple":"","steps":[1]}}]}}] => $[0].from.steps[0].filter.simple BadSimple 0
[{"from":{"uri":"stream:in","steps":[{"split":{"tokenize":"","steps":[1]}}]}}] => $[0].from.steps[0].split.steps[0] WrongKind
[{"from":{"uri":"stream:in","steps":[{"split":{"jsonpath":"","steps":[1]}}]}}] => $[0].from.steps[0].split.jsonpath BadValue
[{"from":{"uri":"stream:in","steps":[{"multicast":{"stopOnException":1,"steps":[1],"stop-on-exception":1}}]}}] => $[0].from.steps[0].multicast DoubleKey stopOnException
[{"from":{"uri":"stream:in","steps":[{"multicast":{"stopOnException":1,"steps":[1]}}]}}] => $[0].from.steps[0].multicast.steps[0] WrongKind
[{"from":{"uri":"stream:in","steps":[{"recipientList":{"simple":"${","delimiter":""}}]}}] => $[0].from.steps[0].recipientList.delimiter BadValue
[{"from":{"uri":"stream:in","steps":[{"doTry":{"steps":[1],"doFinally":1,"doCatch":[1]}}]}}] => $[0].from.steps[0].doTry.doCatch[0] WrongKind
[{"from":{"uri":"stream:in","steps":[{"doTry":{"steps":[1],"doFinally":1}}]}}] => $[0].from.steps[0].doTry.doFinally WrongKind
[{"from":{"uri":"stream:in","steps":[{"doTry":{"steps":[],"doCatch":[{"exception":"E","steps":[1],"onWhen":1}]}}]}}] => $[0].from.steps[0].doTry.doCatch[0].onWhen WrongKind
[{"from":{"uri":"stream:in","steps":[{"recipientList":{"simple":"${","stopOnException":1}}]}}] => $[0].from.steps[0].recipientList.simple BadSimple 0
[{"errorHandler":{"id":1,"deadLetterChannel":{}}}] => $[0].errorHandler.deadLetterChannel MissingKey deadLetterUri
[{"errorHandler":{"id":1,"defaultErrorHandler":{},"description":"d"}}] => $[0].errorHandler.id WrongKind
[{"errorHandler":{"id":1,"other":{}}}] => $[0].errorHandler UnknownKey other
[{"from":{"uri":"stream:in","steps":[{"to":"log:a"},{"to":""},{"shout":1}]}}] => $[0].from.steps[1].to BadUri 0
[{"from":{"uri":"stream:in","steps":[{"filter":{"constant":true,"steps":[{"to":""}]}},{"shout":1}]}}] => $[0].from.steps[0].filter.steps[0].to BadUri 0
[{"from":{"uri":"direct:a"}},{"from":{"uri":""}},{"rout":{}}] => $[1].from.uri BadUri 0
[{"errorHandler":{"defaultErrorHandler":{}}},{"onException":{}},1] => $[1].onException MissingKey exception
[{"route":{"from":{"uri":"direct:a","steps":[]},"steps":[1]}}] => $[0].route.steps[0] WrongKind
[{"route":{"from":{"uri":"","steps":[]},"steps":[]}}] => $[0].route.from.uri BadUri 0
[{"onException":{"exception":"E","handled":true,"continued":true,"steps":[{}]}}] => $[0].onException.steps[0] NotOneKey
[{"from":{"uri":"stream:in","steps":[{"aggregate":{"correlationExpression":{"header":"h"},"steps":[{"shout":1}]}}]}}] => $[0].from.steps[0].aggregate.steps[0] UnknownStep shout
[{"from":{"uri":"stream:in","steps":[{"aggregate":{"correlationExpression":{"header":"h"},"steps":[]}},{"shout":1}]}}] => $[0].from.steps[0].aggregate NoCompletion
[{"from":{"uri":"stream:in","steps":[{"process":{"ref":null}}]}}] => $[0].from.steps[0].process.ref WrongKind
[{"from":{"uri":"stream:in","steps":[{"process":{"ref":"a b"}}]}}] => $[0].from.steps[0].process.ref BadName
[{"from":{"uri":"load:0"}}] => $[0].from.uri BadUri 5
[{"from":{"uri":"stream:in","steps":[{"to":"load:0"}]}}] => $[0].from.steps[0].to BadUri 5
[{"from":{"uri":"stream:in","steps":[{"to":"lane:y?size=1"}]}}] => $[0].from.steps[0].to UnknownOption size
[{"from":{"uri":"stream:in","steps":[{"to":"line:listen:7?x"}]}}] => $[0].from.steps[0].to BadOption x
[{"errorHandler":{"defaultErrorHandler":{}}},{"errorHandler":{"defaultErrorHandler":{}}},{"rout":1}] => $[2] UnknownKey rout
[{"from":{"uri":"direct:a"}},{"from":{"uri":"direct:a"}},{"onException":{"exception":1}}] => $[2].onException.exception WrongKind
[{"from":{"uri":"direct:a"}},{"from":{"uri":"direct:a"}},{"errorHandler":{"defaultErrorHandler":{}}},{"error-handler":{"defaultErrorHandler":{}}}] => $[3] DoubleErrorHandler
[{"route":{"id":"r","from":{"uri":"direct:a"}}},{"route":{"id":"r","from":{"uri":"direct:a"}}}] => $[1].route DoubleRouteId
[{"route":{"id":"r","from":{"uri":"direct:a"}}},{"from":{"uri":"direct:a"}},{"route":{"id":"r","from":{"uri":"direct:b"}}}] => $[1].from.uri SecondConsumer
[{"from":{"uri":"stream:in","steps":[{"resequence":{"steps":[1],"simple":1,"batchConfig":1}}]}}] => $[0].from.steps[0].resequence.batchConfig WrongKind
[{"from":{"uri":"stream:in","steps":[{"resequence":{"steps":[1],"simple":1,"batchConfig":{"batchTimeout":0,"batchSize":0}}}]}}] => $[0].from.steps[0].resequence.batchConfig.batchSize BadValue
[{"from":{"uri":"stream:in","steps":[{"resequence":{"steps":[1],"simple":"x"}}]}}] => $[0].from.steps[0].resequence.simple BadValue
[{"from":{"uri":"stream:in","steps":[{"resequence":{"steps":[1],"batchConfig":1}}]}}] => $[0].from.steps[0].resequence MissingKey expression"#;

/// Items that do not go together.
pub const LATER_FAULTS: &str =
    r#"[{"errorHandler":{"defaultErrorHandler":{}}},{"errorHandler":{"defaultErrorHandler":{}}}] => $[1] DoubleErrorHandler
[{"errorHandler":{"defaultErrorHandler":{}}},{"from":{"uri":"direct:a"}},{"error-handler":{"dead-letter-channel":{"dead-letter-uri":"lane:x"}}}] => $[2] DoubleErrorHandler
[{"errorHandler":{"defaultErrorHandler":{}}},{"errorHandler":{"defaultErrorHandler":{}}},{"errorHandler":{"defaultErrorHandler":{}}}] => $[1] DoubleErrorHandler
[{"route":{"id":"r","from":{"uri":"direct:a"}}},{"route":{"id":"r","from":{"uri":"direct:b"}}}] => $[1].route DoubleRouteId
[{"route":{"id":"route2","from":{"uri":"direct:a"}}},{"from":{"uri":"direct:b"}}] => $[1].from DoubleRouteId
[{"route":{"id":"route2","from":{"uri":"direct:a"}}},{"route":{"from":{"uri":"direct:b"}}}] => $[1].route DoubleRouteId
[{"from":{"uri":"direct:a"}},{"route":{"id":"route1","from":{"uri":"direct:b"}}}] => $[1].route DoubleRouteId
[{"onException":{"exception":"E"}},{"route":{"id":"route2","from":{"uri":"direct:a"}}},{"errorHandler":{"defaultErrorHandler":{}}},{"from":{"uri":"direct:b"}}] => $[3].from DoubleRouteId
[{"from":{"uri":"direct:a","id":"r"}},{"from":{"uri":"direct:b","id":"r"}},{"route":{"id":"route2","from":{"uri":"direct:c"}}}] => $[2].route DoubleRouteId
[{"from":{"uri":"direct:a"}},{"from":{"uri":"direct:z"}},{"route":{"from":{"uri":"direct:a"}}}] => $[2].route.from.uri SecondConsumer
[{"from":{"uri":"direct:a"}},{"from":{"uri":"direct://a"}}] => $[1].from.uri SecondConsumer
[{"from":{"uri":"seda:a"}},{"from":{"uri":"direct:z"}},{"route":{"from":{"uri":"seda:a?size=3"}}}] => $[2].route.from.uri SecondConsumer
[{"from":{"uri":"seda:a?concurrentConsumers=2"}},{"from":{"uri":"seda:a"}}] => $[1].from.uri SecondConsumer
[{"from":{"uri":"file:in"}},{"from":{"uri":"direct:z"}},{"route":{"from":{"uri":"file:in"}}}] => $[2].route.from.uri SecondConsumer
[{"from":{"uri":"file:in"}},{"from":{"uri":"file://in?noop=true"}}] => $[1].from.uri SecondConsumer
[{"from":{"uri":"file:in?delete=true"}},{"from":{"uri":"direct:z"}},{"route":{"from":{"uri":"file:in?move=done"}}}] => $[2].route.from.uri SecondConsumer
[{"from":{"uri":"file:/in"}},{"from":{"uri":"file:///in"}}] => $[1].from.uri SecondConsumer
[{"from":{"uri":"line:listen:7"}},{"from":{"uri":"direct:z"}},{"route":{"from":{"uri":"line:listen:7"}}}] => $[2].route.from.uri SecondConsumer
[{"from":{"uri":"stream:in"}},{"from":{"uri":"stream:in"}}] => $[1].from.uri SecondConsumer
[{"from":{"uri":"stream:in"}},{"from":{"uri":"direct:z"}},{"route":{"from":{"uri":"stream://in"}}}] => $[2].route.from.uri SecondConsumer
[{"from":{"uri":"load:1"}},{"from":{"uri":"load:1"}}] => $[1].from.uri SecondConsumer
[{"from":{"uri":"load:1"}},{"from":{"uri":"direct:z"}},{"route":{"from":{"uri":"load:2"}}}] => $[2].route.from.uri SecondConsumer
[{"from":{"uri":"seda:a"}},{"from":{"uri":"seda:a","parameters":{"size":3}}}] => $[1].from.uri SecondConsumer"#;
